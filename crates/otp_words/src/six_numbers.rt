//! A password as six numbers of 11 bits, and back.
ghost use Rattle.std.specs.Prelude.{◌≡◌, ℕ, ◌<◌, ◌^◌, ◌↔◌, length, Some, All};
ghost use Rattle.otp_words.specs.SixWords.{check_of, password_of, six};

/// The check bits: the two low bits of the sum of the password's 32 pairs of bits.
fn check(password: u64) -> u64
    ensures { result ≡ check_of password }
{
    let mut sum = 0;
    let mut rest = password;
    for _pair in 0..32_u32 {
        sum += rest % 4;
        rest /= 4;
    }
    sum % 4
}

/// The six numbers of a password, greatest first (RFC 2289, 6.2).
pub(crate) fn six(password: u64) -> [u16; 6]
    ensures numbers { result ≡ six password }
    ensures within { All (λ number. number < 2048) result }
{
    let fifth = password / 512;
    let fourth = fifth / 2048;
    let third = fourth / 2048;
    let second = third / 2048;
    let first = second / 2048;
    [
        first as u16,
        (second % 2048) as u16,
        (third % 2048) as u16,
        (fourth % 2048) as u16,
        (fifth % 2048) as u16,
        (4 * (password % 512) + check(password)) as u16,
    ]
}

/// The password that six numbers are, where its check bits follow it.
#[tactic(auto, unfolding(crate::specs::SixWords::password_of))]
pub(crate) fn password_of(numbers: [u16; 6]) -> Option<u64>
    requires { All (λ number. number < 2048) numbers }
    ensures { result ≡ password_of numbers }
{
    let [first, second, third, fourth, fifth, last] = numbers;
    let upper = 2048 * (2048 * u64::from(first) + u64::from(second)) + u64::from(third);
    let front = 2048 * (2048 * upper + u64::from(fourth)) + u64::from(fifth);
    let password = 512 * front + u64::from(last / 4);
    if u64::from(last % 4) == check(password) {
        Some(password)
    } else {
        None
    }
}
