//! Opening the slot that stands on a disk.
ghost use Rattle.std.specs.Prelude.{◌≡◌, ◌+◌, ◌≤◌, ◌<◌, ◌^◌, ℕ, nat_lt, None, Some, false, length, IfOk, OnOk, OnErr, IfErr, IfSome, MatchResult};
ghost use Rattle.fw_outside.specs.Counts.{Rose};
ghost use Rattle.fw_disk.specs.Medium.{IsImage};
ghost use Rattle.fw_disk.specs.DiskView.{HasSynced, Tape};
ghost use Rattle.fw_disk.specs.Moments.{EachImage, Through};
ghost use Rattle.slot_bytes.specs.Reading.{reads};
ghost use Rattle.spool_law.specs.Runs.{Known, Runs};
ghost use Rattle.spool_slots.specs.Found.{CountsIn, IsBad, IsBadSlot, IsFoundIn, IsSettledAs, IsSyncedBut, IsSyncedFor, found_of};
ghost use Rattle.spool_slots.specs.Images.{IsGoodImage};
ghost use Rattle.spool_slots.specs.Looks.{EndsAt, IsHeadOf};
ghost use Rattle.spool_slots.specs.Opened.{IsBecause, IsReadAs, disk_of, number_of};
ghost use Rattle.spool_slots.specs.States.{IsOnward};

use crate::looking::{FRONT, Look, look_through};
use crate::{Aside, Broken, Free, Full, SlotWhy};
use fw_disk::{Disk, Failed};
use slot_bytes::Head;
use std::alloc::Global;

/// The slot that stands on a disk.
#[derive(Drop)]
pub enum Opened<D: Disk> {
    Free(Free<D>),
    Full(Full<D>),
    Aside(Aside<D>),
}

// What was found.
#[derive(Clone, Copy)]
pub(crate) enum Found {
    Free,
    Full,
    Aside,
}

// Whether a byte stands at a place.
#[tactic(auto, using(crate::proofs::KeptLemmas::stands_there))]
fn has_byte<D: Disk>(disk: &mut D, at: u64) -> Result<bool, Failed>
    ensures told { (D.disk_view disk.new).told ≡ (D.disk_view disk.old).told }
    ensures ok { IfOk result (λ has. IfSome (D.disk_view disk.old).told (λ tape. has ≡ nat_lt at (length tape.now.seen))) }
    ensures faults { OnOk result ((D.disk_view disk.new).faults ≡ (D.disk_view disk.old).faults) }
    ensures err { OnErr result (Rose (D.disk_view disk.old).faults (D.disk_view disk.new).faults) }
{
    let mut byte = [0];
    let count = disk.read(at, &mut byte)?;
    Ok(count == 1)
}

// Where a file ends that is shorter than it should be.
#[tactic(auto, using(crate::proofs::KeptLemmas::goes_further, crate::proofs::KeptLemmas::ends_there, crate::proofs::KeptLemmas::goes_past))]
fn find_end<D: Disk>(disk: &mut D, from: u64, wanted: u64) -> Result<u64, Failed>
    requires within { IfSome (D.disk_view disk.old).told (λ tape. from ≤ length tape.now.seen) }
    requires short { IfSome (D.disk_view disk.old).told (λ tape. length tape.now.seen < wanted) }
    requires small { wanted ≤ 2 ^ 63 + 2 ^ 32 }
    ensures told { (D.disk_view disk.new).told ≡ (D.disk_view disk.old).told }
    ensures ok { IfOk result (λ end. IfSome (D.disk_view disk.old).told (λ tape. end ≡ length tape.now.seen)) }
    ensures faults { OnOk result ((D.disk_view disk.new).faults ≡ (D.disk_view disk.old).faults) }
    ensures err { OnErr result (Rose (D.disk_view disk.old).faults (D.disk_view disk.new).faults) }
{
    let mut at = from;
    let mut block = [0; FRONT];
    while at < wanted {
        let count = disk.read(at, &mut block)?;
        at += count as u64;
        if count < FRONT {
            return Ok(at);
        }
    }
    disk.doubt();
    Err(Failed)
}

// Where the file ends, if that is before a place.
#[tactic(auto, using(crate::proofs::KeptLemmas::ends_not, crate::proofs::KeptLemmas::last_there, crate::proofs::KeptLemmas::last_missing, crate::proofs::KeptLemmas::ends_before))]
fn end_before<D: Disk>(disk: &mut D, from: u64, wanted: u64) -> Result<Option<u64>, Failed>
    requires within { IfSome (D.disk_view disk.old).told (λ tape. from ≤ length tape.now.seen) }
    requires small { wanted ≤ 2 ^ 63 + 2 ^ 32 }
    ensures told { (D.disk_view disk.new).told ≡ (D.disk_view disk.old).told }
    ensures ok { IfOk result (λ end. IfSome (D.disk_view disk.old).told (λ tape. EndsAt end wanted (length tape.now.seen))) }
    ensures faults { OnOk result ((D.disk_view disk.new).faults ≡ (D.disk_view disk.old).faults) }
    ensures err { OnErr result (Rose (D.disk_view disk.old).faults (D.disk_view disk.new).faults) }
{
    if wanted <= from {
        return Ok(None);
    }
    if has_byte(disk, wanted - 1)? {
        return Ok(None);
    }
    let end = find_end(disk, from, wanted)?;
    Ok(Some(end))
}

// What a message with this mark is, whose file ends early or doesn't.
fn found_of(aside: u8, end: Option<u64>) -> Result<Found, SlotWhy>
    ensures { result ≡ found_of aside end }
{
    match end {
        Some(end) => Err(SlotWhy::BadSlot { at: end }),
        None => {
            if aside == 0 {
                Ok(Found::Full)
            } else {
                Ok(Found::Aside)
            }
        }
    }
}

// Whether the whole body is there.
#[tactic(auto, using(crate::proofs::KeptLemmas::kept_within, crate::proofs::KeptLemmas::found_kept, crate::proofs::KeptLemmas::counts_found))]
fn find_kept<D: Disk>(disk: &mut D, head: &Head, place: u64) -> Result<Found, SlotWhy>
    requires head { IfSome (D.disk_view disk.old).told (λ tape. IsHeadOf head.now place tape.now.seen) }
    requires small { place ≤ 2 ^ 63 }
    ensures told { (D.disk_view disk.new).told ≡ (D.disk_view disk.old).told }
    ensures found { IfSome (D.disk_view disk.old).told (λ tape. IsFoundIn result (reads tape.now.seen)) }
    ensures counts { CountsIn result (D.disk_view disk.old) (D.disk_view disk.new) }
{
    match end_before(disk, place, place + head.len as u64) {
        Ok(end) => found_of(head.aside, end),
        Err(Failed) => Err(SlotWhy::DiskFault),
    }
}

// What stands on the disk.
fn find<D: Disk>(alloc: Global, disk: &mut D) -> Result<Found, SlotWhy>
    ensures told { (D.disk_view disk.new).told ≡ (D.disk_view disk.old).told }
    ensures found { IfSome (D.disk_view disk.old).told (λ tape. IsFoundIn result (reads tape.now.seen)) }
    ensures counts { CountsIn result (D.disk_view disk.old) (D.disk_view disk.new) }
{
    match look_through(alloc, disk)? {
        Look::Free => Ok(Found::Free),
        Look::Bad { at } => Err(SlotWhy::BadSlot { at }),
        Look::Kept(head, place) => find_kept(disk, &head, place),
    }
}

// Syncs the disk, and finds what stands there.
#[tactic(auto, using(crate::proofs::OpenLemmas::found_settled, crate::proofs::OpenLemmas::synced_for, crate::proofs::OpenLemmas::images_kept, crate::proofs::OpenLemmas::never_bad, crate::proofs::EventLemmas::runs_synced_and_read, crate::proofs::EventLemmas::runs_unsynced))]
fn sync_and_find<D: Disk>(alloc: Global, disk: &mut D) -> Result<Found, SlotWhy>
    ensures found { IsSettledAs result (D.disk_view disk.new) }
    ensures images { (tape : Tape) → (D.disk_view disk.old).told ≡ Some tape
        → Through (EachImage (IsImage tape.now)) (D.disk_view disk.old) (D.disk_view disk.new) }
    ensures runs { (k : Known) → Runs k (D.disk_view disk.old) k (D.disk_view disk.new) }
    ensures good { (tape : Tape) → (D.disk_view disk.old).told ≡ Some tape → EachImage IsGoodImage tape.now
        → IsBad result → ⊥ }
    ensures counts { CountsIn result (D.disk_view disk.old) (D.disk_view disk.new) }
    ensures synced { IsSyncedFor result (D.disk_view disk.old) (D.disk_view disk.new) }
{
    disk.sync()?;
    find(alloc, disk)
}

/// Opens the slot that stands on a disk: syncs it, and says what stands there.
#[tactic(auto, using(crate::proofs::OpenLemmas::free_vacant))]
pub fn open<D: Disk>(alloc: Global, number: u32, disk: D) -> Result<Opened<D>, (Broken<D>, SlotWhy)>
    ensures ok { IfOk result (λ slot. IsOnward number (D.disk_view disk) (number_of slot) (disk_of slot)) }
    ensures read { IfOk result (λ slot. IsReadAs slot) }
    ensures images { (tape : Tape) → (D.disk_view disk).told ≡ Some tape → MatchResult result
        (λ slot. Through (EachImage (IsImage tape.now)) (D.disk_view disk) (disk_of slot))
        (λ e. Through (EachImage (IsImage tape.now)) (D.disk_view disk) e.0.disk) }
    ensures events { (k : Known) → MatchResult result
        (λ slot. Runs k (D.disk_view disk) k (disk_of slot))
        (λ e. Runs k (D.disk_view disk) k e.0.disk) }
    ensures synced { MatchResult result
        (λ slot. HasSynced (D.disk_view disk) (disk_of slot))
        (λ e. IsSyncedBut e.1 (D.disk_view disk) e.0.disk) }
    ensures err { IfErr result (λ e. IsBecause e.1 (D.disk_view disk) e.0) }
    ensures number { IfErr result (λ e. (e.0.number ≡ number) × (e.0.from_full ≡ false)) }
    ensures good { (tape : Tape) → (D.disk_view disk).told ≡ Some tape → EachImage IsGoodImage tape.now
        → IfErr result (λ e. IsBadSlot e.1 → ⊥) }
{
    let mut disk = disk;
    match sync_and_find(alloc, &mut disk) {
        Ok(Found::Free) => Ok(Opened::Free(Free::of(number, disk))),
        Ok(Found::Full) => Ok(Opened::Full(Full::of(number, disk))),
        Ok(Found::Aside) => Ok(Opened::Aside(Aside::of(number, disk))),
        Err(SlotWhy::DiskFault) => Err((Broken::by_fault(number, disk, false), SlotWhy::DiskFault)),
        Err(SlotWhy::BadSlot { at }) => Err((
            Broken::unread(number, disk),
            SlotWhy::BadSlot { at },
        )),
        Err(SlotWhy::NoMemory) => Err((Broken::unread(number, disk), SlotWhy::NoMemory)),
    }
}
