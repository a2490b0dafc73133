//! Looking at the front of a slot's file.
ghost use Rattle.std.specs.Prelude.{◌≡◌, ◌≤◌, ◌<◌, ◌^◌, ◌∷◌, ℕ, List, Bool, false, length, [], Ok, Err, IfOk, OnOk, IfErr, IfSome, IfNone};
ghost use Rattle.slot_bytes.specs.HeadView.{head_view};
ghost use Rattle.slot_bytes.specs.Reading.{head_at};
ghost use Rattle.spool_slots.specs.Found.{Counts, IsNotBad};
ghost use Rattle.spool_slots.specs.Looks.{HasPlace, IsFrontOf, IsOpened, Says};

use crate::SlotWhy;
use fw_disk::Disk;
use fw_types::NoMemory;
use slot_bytes::{Head, HeadFault, read_head};
use std::alloc::Global;

/// How many bytes are read at once.
pub(crate) const FRONT: usize = 4096;

/// What the front of a slot's file shows.
#[derive(Drop)]
pub(crate) enum Look {
    Free,
    Bad { at: u64 },
    /// The head of a message, and the place of its body.
    Kept(Head, u64),
}

// Of a file that is empty so far.
#[tactic(auto, using(crate::proofs::LookLemmas::says_empty))]
fn look_at_none(ended: bool) -> Option<Look>
    ensures says { IfSome result (λ look. (bytes : List ℕ) → IsFrontOf [] ended bytes → Says look bytes) }
    ensures place { IfSome result (HasPlace 0) }
    ensures more { IfNone result (ended ≡ false) }
{
    if ended {
        Some(Look::Bad { at: 0 })
    } else {
        None
    }
}

// Behind a closed gate.
#[tactic(auto, using(crate::proofs::LookLemmas::says_free, crate::proofs::LookLemmas::says_one))]
fn look_at_closed(rest: &[u8], ended: bool) -> Option<Look>
    ensures says { IfSome result (λ look. (bytes : List ℕ) → IsFrontOf (0 ∷ rest.now) ended bytes → Says look bytes) }
    ensures place { IfSome result (HasPlace 0) }
    ensures more { IfNone result (ended ≡ false) }
{
    match rest {
        [_, ..] => Some(Look::Free),
        [] => {
            if ended {
                Some(Look::Bad { at: 1 })
            } else {
                None
            }
        }
    }
}

// Where the head is bad, or the front ends within it.
#[tactic(auto, using(crate::proofs::LookLemmas::says_short))]
fn look_at_bad(front: &[u8], left: usize, ended: bool) -> Option<Look>
    requires opened { IsOpened front.now }
    requires bad { head_at front.now ≡ Err left }
    ensures says { IfSome result (λ look. (bytes : List ℕ) → IsFrontOf front.now ended bytes → Says look bytes) }
    ensures place { IfSome result (HasPlace 0) }
    ensures more { IfNone result (ended ≡ false) }
{
    let good = front.len() - left;
    if left > 0 {
        return Some(Look::Bad { at: good as u64 });
    }
    if ended {
        return Some(Look::Bad { at: good as u64 });
    }
    None
}

// Where the head was read.
fn look_at_head(front: &[u8], head: Head, rest: &[u8]) -> Look
    requires opened { IsOpened front.now }
    requires read { head_at front.now ≡ Ok (head_view head, rest.now) }
    ensures says { (ended : Bool) (bytes : List ℕ) → IsFrontOf front.now ended bytes → Says result bytes }
    ensures place { HasPlace (length front.now) result }
{
    Look::Kept(head, (front.len() - rest.len()) as u64)
}

// Behind an open gate.
#[tactic(auto, using(crate::proofs::LookLemmas::has_place))]
fn look_at_open(alloc: Global, front: &[u8], ended: bool) -> Result<Option<Look>, NoMemory>
    requires { IsOpened front.now }
    ensures says { IfOk result (λ some. IfSome some (λ look.
        (bytes : List ℕ) → IsFrontOf front.now ended bytes → Says look bytes)) }
    ensures place { IfOk result (λ some. IfSome some (HasPlace (length front.now))) }
    ensures more { IfOk result (λ some. IfNone some (ended ≡ false)) }
{
    match read_head(alloc, front) {
        Ok((head, rest)) => Ok(Some(look_at_head(front, head, rest))),
        Err(HeadFault::Bad(stop)) => Ok(look_at_bad(front, stop.left, ended)),
        Err(HeadFault::NoMemory) => Err(NoMemory),
    }
}

// What a front shows, or nothing where more of the file is to be read.
#[tactic(auto, using(crate::proofs::LookLemmas::has_place, crate::proofs::LookLemmas::opened_front, crate::proofs::LookLemmas::says_closed))]
fn look_at(alloc: Global, front: &[u8], ended: bool) -> Result<Option<Look>, NoMemory>
    ensures says { IfOk result (λ some. IfSome some (λ look.
        (bytes : List ℕ) → IsFrontOf front.now ended bytes → Says look bytes)) }
    ensures place { IfOk result (λ some. IfSome some (HasPlace (length front.now))) }
    ensures more { IfOk result (λ some. IfNone some (ended ≡ false)) }
{
    match front {
        [] => Ok(look_at_none(ended)),
        [0, rest @ ..] => Ok(look_at_closed(rest, ended)),
        [_, ..] => look_at_open(alloc, front, ended),
    }
}

// Reads more of the file behind its front, and says whether it ended.
#[tactic(auto, using(crate::proofs::LookLemmas::more_front))]
fn read_more<D: Disk>(disk: &mut D, front: &mut Vec<u8>) -> Result<bool, SlotWhy>
    requires { IfSome (D.disk_view disk.old).told (λ tape. IsFrontOf front.old.items false tape.now.seen) }
    ensures told { (D.disk_view disk.new).told ≡ (D.disk_view disk.old).told }
    ensures front { IfOk result (λ ended. IfSome (D.disk_view disk.old).told (λ tape. IsFrontOf front.new.items ended tape.now.seen)) }
    ensures grows { IfOk result (λ ended. ended ≡ false → length front.old.items < length front.new.items) }
    ensures faults { OnOk result ((D.disk_view disk.new).faults ≡ (D.disk_view disk.old).faults) }
    ensures err { IfErr result (λ why. Counts why (D.disk_view disk.old) (D.disk_view disk.new)) }
    ensures cause { IfErr result (λ why. IsNotBad why) }
{
    let mut block = [0; FRONT];
    let count = disk.read(front.len() as u64, &mut block)?;
    front.extend_from_slice(&block[..count])?;
    Ok(count < FRONT)
}

/// Reads the file's front until it shows what the file is.
#[tactic(auto, using(crate::proofs::LookLemmas::look_says, crate::proofs::LookLemmas::has_place))]
pub(crate) fn look_through<D: Disk>(alloc: Global, disk: &mut D) -> Result<Look, SlotWhy>
    ensures told { (D.disk_view disk.new).told ≡ (D.disk_view disk.old).told }
    ensures says { IfOk result (λ look. IfSome (D.disk_view disk.old).told (λ tape. Says look tape.now.seen)) }
    ensures place { IfOk result (HasPlace (2 ^ 63)) }
    ensures faults { OnOk result ((D.disk_view disk.new).faults ≡ (D.disk_view disk.old).faults) }
    ensures err { IfErr result (λ why. Counts why (D.disk_view disk.old) (D.disk_view disk.new)) }
    ensures cause { IfErr result (λ why. IsNotBad why) }
{
    let mut front = Vec::new(alloc);
    loop {
        let ended = read_more(disk, &mut front)?;
        if let Some(look) = look_at(alloc, &front, ended)? {
            return Ok(look);
        }
    }
}
