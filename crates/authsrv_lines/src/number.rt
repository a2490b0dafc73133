//! Numbers in decimal, without leading zeros.
ghost use Rattle.std.specs.Prelude.{◌≡◌, ◌+◌, ◌<◌, ◌≤◌, ◌^◌, ◌++◌, ℕ, Some, IfSome};
ghost use Rattle.std.specs.Fmt.{decimal};
ghost use Rattle.std.specs.Str.{bytes_eq};
ghost use Rattle.arrayvec.specs.ArrayVec.{array_vec_len};
ghost use Rattle.authsrv_lines.specs.Number.{checked, number_up_to};

use arrayvec::ArrayVec;
use fw_types::append_decimal;
use itoa::Buffer;
use std::str;

/// Appends a number of 64 bits, which has at most twenty digits, to a buffer with room for so many.
pub(crate) fn append_u64(out: &mut ArrayVec<u8, 512>, number: u64)
    requires { array_vec_len out.old + 20 ≤ 512 }
    ensures items { out.new.items ≡ out.old.items ++ decimal number }
    ensures room { array_vec_len out.new ≤ array_vec_len out.old + 20 }
{
    append_decimal(out, number);
}

// The number that the text is, if it is a number in decimal.
fn parse(text: &[u8]) -> Option<u64>
    ensures { (n : ℕ) → n < 2 ^ 64 → text.now ≡ decimal n → result ≡ Some n }
{
    match str::from_utf8(text) {
        Ok(text) => text.parse::<u64>().ok(),
        Err(_) => None,
    }
}

fn is_decimal_of(number: u64, text: &[u8]) -> bool
    ensures { result ≡ bytes_eq text.now (decimal number) }
{
    let mut buffer = Buffer::new();
    text == buffer.format(number).as_bytes()
}

fn checked(most: u64, text: &[u8], number: Option<u64>) -> Option<u64>
    ensures value { result ≡ checked most text.now number }
    ensures range { IfSome result (λ n. n ≤ most) }
{
    match number {
        Some(number) if number <= most && is_decimal_of(number, text) => Some(number),
        _ => None,
    }
}

/// The number that the text is, of at most this greatest one, without leading zeros; nothing for other texts.
#[tactic(auto, using(crate::proofs::NumberLemmas::number_is))]
pub(crate) fn read_up_to(most: u64, text: &[u8]) -> Option<u64>
    ensures value { result ≡ number_up_to most text.now }
    ensures range { IfSome result (λ n. n ≤ most) }
{
    checked(most, text, parse(text))
}

/// The number of 32 bits that the text is, without leading zeros.
pub(crate) fn read_u32(text: &[u8]) -> Option<u32>
    ensures { result ≡ number_up_to 4294967295 text.now }
{
    let number = read_up_to(4_294_967_295, text)?;
    Some(number as u32)
}
