//! A password as hexadecimal digits (RFC 2289, 6.0, the form of output).
ghost use Rattle.std.specs.Prelude.{◌≡◌, ◌<◌, ◌↔◌, length, IsSome, IfNone, IfSome};
ghost use Rattle.std.specs.List.{AllPass};
ghost use Rattle.hex.specs.Hex.{is_hex_digit};
ghost use Rattle.otp_md5.specs.Hexadecimal.{is_blank, unblanked, hex_word_of, read_of};

use arrayvec::ArrayVec;

fn is_blank(byte: u8) -> bool
    ensures { result ≡ is_blank byte }
{
    byte == b' ' || byte == b'\t'
}

/// What is left without blanks, or nothing where that is more than 16 bytes.
fn unblanked(text: &[u8]) -> Option<ArrayVec<u8, 16>>
    ensures some { IfSome result (λ left. left.items ≡ unblanked text.now) }
    ensures none { IfNone result (16 < length (unblanked text.now)) }
{
    let mut left = ArrayVec::new();
    for byte in text {
        if is_blank(*byte) {
            continue;
        }
        if left.try_push(*byte).is_err() {
            return None;
        }
    }
    Some(left)
}

/// The password that 16 hexadecimal digits are, or nothing where the bytes are anything else.
fn read_digits(digits: &[u8]) -> Option<u64>
    ensures { result ≡ hex_word_of digits.now }
{
    let mut bytes = [0; 8];
    match hex::decode_to_slice(digits, &mut bytes) {
        Ok(()) => Some(u64::from_be_bytes(bytes)),
        Err(_) => None,
    }
}

/// The password that a text is, in 16 hexadecimal digits. Spaces, tabs and case don't matter. Nothing where what is
/// left without blanks isn't 16 hexadecimal digits.
#[tactic(auto, unfolding(crate::specs::Hexadecimal::read_of))]
pub fn read_hex(text: &[u8]) -> Option<u64>
    ensures value { result ≡ read_of text.now }
    ensures some { IsSome result ↔ ((length (unblanked text.now) ≡ 16) × AllPass is_hex_digit (unblanked text.now)) }
{
    match unblanked(text) {
        Some(digits) => read_digits(digits.as_slice()),
        None => None,
    }
}
