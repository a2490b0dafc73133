//! How a message is kept in a slot.
ghost use Rattle.std.specs.Prelude.{◌≡◌, ◌<◌, ◌∷◌, [], codes, IfSome};

use crate::killed::SlotDisk;
use fw_types::{Octets, OctetsList};
use spool_slots::{Filling, Free, Full, StartFault};
use std::alloc::{AllocError, Global};

/// A slot between two messages.
#[derive(Drop)]
pub enum Slot {
    Free(Free<SlotDisk>),
    Full(Full<SlotDisk>),
}

/// How long the body of this message is, behind the number.
pub fn body_len(number: u64) -> u32
    ensures { result < 30000 }
{
    (number.wrapping_mul(7919) % 30_000) as u32
}

/// The byte that its body has everywhere behind the number.
pub fn body_byte(number: u64) -> u8 {
    (number % 251) as u8
}

// The body of this message: its number, and one byte as often as it is long.
fn body_of(alloc: Global, number: u64) -> Result<Vec<u8>, AllocError> {
    let mut body = Vec::new(alloc);
    body.extend_from_slice(&number.to_be_bytes())?;
    for _ in 0..body_len(number) {
        body.push(body_byte(number))?;
    }
    Ok(body)
}

// The recipients: one.
fn recipients(alloc: Global) -> Option<OctetsList>
    ensures { IfSome result (λ rcpts. rcpts ≡ codes "r" ∷ []) }
{
    let mut rcpts = OctetsList::new(alloc);
    let one = Octets::copy(alloc, b"r").ok()?;
    rcpts.push(one).ok()?;
    Some(rcpts)
}

// The slot with a message that is begun, from `kills`.
fn begin(alloc: Global, free: Free<SlotDisk>) -> Option<Filling<SlotDisk>>
    ensures { IfSome result (λ filling. filling.pen.len ≡ 0) }
{
    let rcpts = recipients(alloc)?;
    match free.start(alloc, b"kills", &rcpts) {
        Ok(filling) => Some(filling),
        Err(StartFault::NoMemory(_)) => None,
        Err(StartFault::Disk(_)) => None,
    }
}

/// Keeps the message of this number in the slot, in place of the one that it holds.
pub fn keep(alloc: Global, slot: Slot, number: u64) -> Option<Slot> {
    let free = match slot {
        Slot::Free(free) => free,
        Slot::Full(full) => full.release().ok()?,
    };
    let body = body_of(alloc, number).ok()?;
    let text = body.as_slice();
    if text.len() > 30_008 {
        return None;
    }
    let filling = begin(alloc, free)?.add(text).ok()?;
    Some(Slot::Full(filling.finish().ok()?))
}
