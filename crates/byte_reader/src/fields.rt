//! Reading one field from the front of the bytes: what was read, and the bytes after it.
ghost use Rattle.std.specs.Prelude.{◌≡◌, ◌≤◌, ◌<◌, ◌^◌, ℕ, Bool, length, IfOk};
ghost use Rattle.std.specs.List.{prefix_len};
ghost use Rattle.byte_reader.specs.Reading.{IsReadAs, byte_at, bytes_at, text_at, short_at, long_number_at, second_least, second_most};

use crate::Stop;

/// A byte from the least to the most, both included.
pub fn byte_of(least: u8, most: u8, bytes: &[u8]) -> Result<(u8, &[u8]), Stop>
    ensures { IsReadAs (λ x. (x.0, x.1.now)) result (byte_at least most bytes.now) }
{
    match bytes {
        [] => Err(Stop { left: 0 }),
        [byte, rest @ ..] => {
            if least <= *byte && *byte <= most {
                Ok((*byte, rest))
            } else {
                Err(Stop { left: bytes.len() })
            }
        }
    }
}

/// So many bytes.
pub fn bytes_of(len: usize, bytes: &[u8]) -> Result<(&[u8], &[u8]), Stop>
    ensures gives { IsReadAs (λ x. (x.0.now, x.1.now)) result (bytes_at len bytes.now) }
    ensures len { IfOk result (λ x. length x.0.now ≡ len) }
{
    if bytes.len() < len {
        return Err(Stop { left: 0 });
    }
    Ok(bytes.split_at(len))
}

fn least_of(least: u16, first: u8) -> u8
    ensures { result ≡ second_least least first }
{
    if first as u16 == least / 256 {
        (least % 256) as u8
    } else {
        0
    }
}

fn most_of(most: u16, first: u8) -> u8
    ensures { result ≡ second_most most first }
{
    if first as u16 == most / 256 {
        (most % 256) as u8
    } else {
        255
    }
}

/// A number from the least to the most, both included, in two bytes, the greater first.
#[tactic(auto, unfolding(crate::specs::Reading::short_at))]
pub fn short_of(least: u16, most: u16, bytes: &[u8]) -> Result<(u16, &[u8]), Stop>
    ensures gives { IsReadAs (λ x. (x.0, x.1.now)) result (short_at least most bytes.now) }
    ensures range { least ≤ most → IfOk result (λ x. (least ≤ x.0) × (x.0 ≤ most)) }
{
    let (first, rest) = byte_of((least / 256) as u8, (most / 256) as u8, bytes)?;
    let (second, rest) = byte_of(least_of(least, first), most_of(most, first), rest)?;
    Ok((256 * first as u16 + second as u16, rest))
}

/// A number in eight bytes, the greatest first.
#[tactic(auto, unfolding(crate::specs::Reading::long_number_at))]
pub fn long_number_of(bytes: &[u8]) -> Result<(u64, &[u8]), Stop>
    ensures { IsReadAs (λ x. (x.0, x.1.now)) result (long_number_at bytes.now) }
{
    let (eight, rest) = bytes_of(8, bytes)?;
    let number = u64::from_be_bytes([
        eight[0], eight[1], eight[2], eight[3], eight[4], eight[5], eight[6], eight[7],
    ]);
    Ok((number, rest))
}

/// So many bytes that each pass a test. How many bytes at the front pass it, the caller has counted.
pub fn text_of(len: usize, passing: usize, bytes: &[u8]) -> Result<(&[u8], &[u8]), Stop>
    requires { passing ≤ length bytes.now }
    ensures { (test : ℕ → Bool) → passing ≡ prefix_len test bytes.now
        → IsReadAs (λ x. (x.0.now, x.1.now)) result (text_at test len bytes.now) }
{
    if passing < len {
        return Err(Stop {
            left: bytes.len() - passing,
        });
    }
    Ok(bytes.split_at(len))
}
