//! Reading what stands in front of the body.
ghost use Rattle.std.specs.Prelude.{◌≡◌, ◌++◌, ◌∷◌, [], OnOk};
ghost use Rattle.slot_bytes.specs.Layout.{mark_count};
ghost use Rattle.slot_bytes.specs.Reading.{head_at, rcpts_at};
ghost use Rattle.slot_bytes.specs.Views.{IsReadIfMemory};
ghost use Rattle.slot_bytes.specs.HeadView.{head_view};

use crate::HeadFault;
use crate::fields::{body_len_of, long_text_of, preamble_of};
use byte_reader::{bytes_of, short_of};
use fw_types::{NoMemory, Octets, OctetsList};
use std::alloc::Global;

/// What stands in front of a slot's body.
#[derive(Drop)]
pub struct Head {
    /// The gate, which is open: 1 is written, and every byte but 0 is read.
    pub gate: u8,
    /// Whether the message is set aside: 0 if not; else 1 is written, and every other byte is read.
    pub aside: u8,
    /// The digit of the version, as a byte of ASCII.
    pub version: u8,
    /// The body's length in bytes.
    pub len: u32,
    /// A byte for each recipient, 0 while it waits; in version 1 none.
    pub marks: Octets,
    pub from: Octets,
    pub rcpts: OctetsList,
}

// Adds a copy of the text.
fn add(alloc: Global, list: &mut OctetsList, text: &[u8]) -> Result<(), NoMemory>
    ensures { OnOk result (list.new ≡ list.old ++ text.now ∷ []) }
{
    let one = Octets::copy(alloc, text)?;
    match list.push(one) {
        Ok(()) => Ok(()),
        Err(_) => Err(NoMemory),
    }
}

// So many recipients, each behind its length.
fn rcpts_of(alloc: Global, count: u16, bytes: &[u8]) -> Result<(OctetsList, &[u8]), HeadFault>
    ensures { IsReadIfMemory (λ x. (x.0, x.1.now)) result (rcpts_at count bytes.now) }
{
    let mut list = OctetsList::new(alloc);
    let mut rest = bytes;
    let mut left = count;
    while left > 0 {
        let (text, after) = match long_text_of(1, 256, rest) {
            Ok(read) => read,
            Err(stop) => return Err(HeadFault::Bad(stop)),
        };
        add(alloc, &mut list, text)?;
        rest = after;
        left -= 1;
    }
    Ok((list, rest))
}

// How many marks a version has.
fn mark_count(version: u8, count: u16) -> u16
    ensures { result ≡ mark_count version count }
{
    if version == b'1' { 0 } else { count }
}

/// Reads the head from the front of the bytes: what stands there, and the bytes after it.
#[tactic(auto, unfolding(crate::specs::Reading::head_at))]
pub fn read_head(alloc: Global, bytes: &[u8]) -> Result<(Head, &[u8]), HeadFault>
    ensures { IsReadIfMemory (λ x. (head_view x.0, x.1.now)) result (head_at bytes.now) }
{
    let (start, rest) = preamble_of(bytes)?;
    let (len, rest) = body_len_of(rest)?;
    let (count, rest) = short_of(1, 1000, rest)?;
    let (marks, rest) = bytes_of(mark_count(start.version, count) as usize, rest)?;
    let (from, rest) = long_text_of(0, 256, rest)?;
    let (rcpts, rest) = rcpts_of(alloc, count, rest)?;
    let marks = Octets::copy(alloc, marks)?;
    let from = Octets::copy(alloc, from)?;
    let head = Head {
        gate: start.gate,
        aside: start.aside,
        version: start.version,
        len,
        marks,
        from,
        rcpts,
    };
    Ok((head, rest))
}
