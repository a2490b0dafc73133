//! Fields of a slot's head, from the front of the bytes: what was read, and the bytes after it.
ghost use Rattle.std.specs.Prelude.{◌≡◌, ◌≤◌, ◌<◌, length, IfOk};
ghost use Rattle.byte_reader.specs.Reading.{IsReadAs};
ghost use Rattle.slot_bytes.specs.Reading.{body_len_at, long_text_at, low_most, preamble_at};
ghost use Rattle.slot_bytes.specs.Views.{preamble_view};

use byte_reader::{Stop, byte_of, bytes_of, short_of};

/// What stands in front of the body's length.
#[derive(Clone, Copy)]
pub(crate) struct Preamble {
    pub(crate) gate: u8,
    pub(crate) aside: u8,
    pub(crate) version: u8,
}

#[tactic(auto, unfolding(crate::specs::Reading::preamble_at))]
pub(crate) fn preamble_of(bytes: &[u8]) -> Result<(Preamble, &[u8]), Stop>
    ensures { IsReadAs (λ x. (preamble_view x.0, x.1.now)) result (preamble_at bytes.now) }
{
    let (gate, rest) = byte_of(1, 255, bytes)?;
    let (aside, rest) = byte_of(0, 255, rest)?;
    let (_, rest) = byte_of(b'F', b'F', rest)?;
    let (_, rest) = byte_of(b'W', b'W', rest)?;
    let (_, rest) = byte_of(b'S', b'S', rest)?;
    let (version, rest) = byte_of(b'1', b'2', rest)?;
    Ok((
        Preamble {
            gate,
            aside,
            version,
        },
        rest,
    ))
}

fn low_most(high: u16) -> u16
    ensures { result ≡ low_most high }
{
    if high == 1024 { 0 } else { 65_535 }
}

/// The length of a body.
#[tactic(auto, unfolding(crate::specs::Reading::body_len_at))]
pub(crate) fn body_len_of(bytes: &[u8]) -> Result<(u32, &[u8]), Stop>
    ensures { IsReadAs (λ x. (x.0, x.1.now)) result (body_len_at bytes.now) }
{
    let (_, rest) = short_of(0, 0, bytes)?;
    let (_, rest) = short_of(0, 0, rest)?;
    let (high, rest) = short_of(0, 1024, rest)?;
    let (low, rest) = short_of(0, low_most(high), rest)?;
    Ok((65_536 * high as u32 + low as u32, rest))
}

/// A text behind its length in two bytes.
#[tactic(auto, unfolding(crate::specs::Reading::long_text_at))]
pub(crate) fn long_text_of(least: u16, most: u16, bytes: &[u8]) -> Result<(&[u8], &[u8]), Stop>
    ensures { IsReadAs (λ x. (x.0.now, x.1.now)) result (long_text_at least most bytes.now) }
{
    let (len, rest) = short_of(least, most, bytes)?;
    bytes_of(len as usize, rest)
}
