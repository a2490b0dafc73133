//! Reading a whole slot file.
ghost use Rattle.std.specs.Prelude.{◌≡◌, ◌<◌, ◌≤◌, ◌^◌, ℕ, List, length, IfErr, IfOk};
ghost use Rattle.slot_bytes.specs.HeadView.{head_view};
ghost use Rattle.slot_bytes.specs.Layout.{done_of};
ghost use Rattle.slot_bytes.specs.Reading.{done_in, free_or_short, kept_or_bad, mail_of, reads, slot_in, whole_at};
ghost use Rattle.slot_bytes.specs.Views.{IsReadIfMemory};
ghost use Rattle.slot_bytes.specs.SlotView.{HasDone, IsSlotRead, FirstBad, kept_view, mail_view};

use crate::kept::done_of;
use crate::{Head, HeadFault, Kept, SlotFault, read_head};
use byte_reader::bytes_of;
use fw_types::{Message, NoMemory, Octets};
use std::alloc::Global;

/// What a slot file is read as.
#[derive(Drop)]
pub enum Slot {
    Free,
    Whole(Kept),
    Aside(Kept),
}

// The head, and the body behind it.
#[tactic(auto, unfolding(crate::specs::Reading::whole_at))]
fn read_whole(alloc: Global, bytes: &[u8]) -> Result<((Head, Octets), &[u8]), HeadFault>
    ensures read { IsReadIfMemory (λ x. (kept_view x.0, x.1.now)) result (whole_at bytes.now) }
    ensures few { IfOk result (λ x. length x.0.0.marks ≤ 1000) }
{
    let (head, rest) = read_head(alloc, bytes)?;
    let (body, rest) = bytes_of(head.len as usize, rest)?;
    let body = Octets::copy(alloc, body)?;
    Ok(((head, body), rest))
}

// The message with this head and this body.
fn kept_of(alloc: Global, head: Head, body: Octets) -> Result<Kept, NoMemory>
    requires { length head.marks < 2 ^ 32 }
    ensures message { IfOk result (λ kept. mail_view kept.message ≡ mail_of (head_view head, body)) }
    ensures done { IfOk result (λ kept. kept.done ≡ done_of head.marks) }
{
    let done = done_of(alloc, head.marks.bytes())?;
    let version = if head.version == b'1' { 1 } else { 2 };
    let message = Message {
        from: head.from,
        rcpts: head.rcpts,
        body,
    };
    Ok(Kept {
        message,
        version,
        done,
    })
}

// What this head and this body are read as.
fn slot_of(alloc: Global, head: Head, body: Octets) -> Result<Slot, SlotFault>
    requires { length head.marks < 2 ^ 32 }
    ensures read { IsSlotRead result (slot_in (head_view head, body)) }
    ensures done { IfOk result (λ slot. HasDone slot (done_of head.marks)) }
{
    let aside = head.aside;
    match kept_of(alloc, head, body) {
        Ok(kept) => {
            if aside == 0 {
                Ok(Slot::Whole(kept))
            } else {
                Ok(Slot::Aside(kept))
            }
        }
        Err(NoMemory) => Err(SlotFault::NoMemory),
    }
}

// What an open gate leads to.
fn read_kept(alloc: Global, bytes: &[u8]) -> Result<Slot, SlotFault>
    ensures read { IsSlotRead result (kept_or_bad (length bytes.now) (whole_at bytes.now)) }
    ensures done { IfOk result (λ slot. HasDone slot (done_in bytes.now)) }
{
    match read_whole(alloc, bytes) {
        Ok(((head, body), _)) => slot_of(alloc, head, body),
        Err(HeadFault::Bad(stop)) => Err(SlotFault::Bad {
            at: bytes.len() - stop.left,
        }),
        Err(HeadFault::NoMemory) => Err(SlotFault::NoMemory),
    }
}

// What a closed gate leads to, from byte 1 on.
fn read_closed(rest: &[u8]) -> Result<Slot, SlotFault>
    ensures read { IsSlotRead result (free_or_short rest.now) }
    ensures done { (done : List ℕ) → IfOk result (λ slot. HasDone slot done) }
{
    match rest {
        [] => Err(SlotFault::Bad { at: 1 }),
        [_, ..] => Ok(Slot::Free),
    }
}

#[tactic(auto, unfolding(crate::specs::Reading::reads))]
fn read_any(alloc: Global, bytes: &[u8]) -> Result<Slot, SlotFault>
    ensures read { IsSlotRead result (reads bytes.now) }
    ensures done { IfOk result (λ slot. HasDone slot (done_in bytes.now)) }
{
    match bytes {
        [] => Err(SlotFault::Bad { at: 0 }),
        [gate, rest @ ..] => {
            if *gate == 0 {
                read_closed(rest)
            } else {
                read_kept(alloc, bytes)
            }
        }
    }
}

/// Reads a whole slot file.
pub fn read_slot(alloc: Global, bytes: &[u8]) -> Result<Slot, SlotFault>
    ensures reads { IsSlotRead result (reads bytes.now) }
    ensures done { IfOk result (λ slot. HasDone slot (done_in bytes.now)) }
    ensures at { IfErr result (FirstBad bytes.now) }
{
    read_any(alloc, bytes)
}
