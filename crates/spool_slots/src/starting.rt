//! Beginning a message.
ghost use Rattle.std.specs.Prelude.{◌≡◌, ◌+◌, ◌∷◌, [], ℕ, List, length, MatchResult, IfOk, IfErr};
ghost use Rattle.fw_disk.specs.Moments.{EachImage, Now, Through};
ghost use Rattle.slot_bytes.specs.Layout.{IsEnvelope, all_waiting, tagged_head};
ghost use Rattle.spool_law.specs.Events.{IsBegun};
ghost use Rattle.spool_law.specs.Runs.{Known, Runs};
ghost use Rattle.spool_slots.specs.Images.{IsFreeImage};
ghost use Rattle.spool_slots.specs.Media.{IsVacant, begun};
ghost use Rattle.spool_slots.specs.States.{Drafts, IsBrokenIn, IsOnward};

use crate::adding::fill;
use crate::pen::Pen;
use crate::{Broken, Filling};
use fw_disk::{Disk, Failed};
use fw_types::{NoMemory, OctetsList};
use slot_bytes::head_bytes;
use std::alloc::Global;

/// What is written first, from byte 1 on, and the pen at its end.
#[tactic(auto, using(crate::proofs::FillingLemmas::head_small))]
pub(crate) fn prepare(
    alloc: Global,
    from: &[u8],
    rcpts: &OctetsList,
) -> Result<(Vec<u8>, Pen), NoMemory>
    requires { IsEnvelope from.now rcpts.now }
    ensures head { IfOk result (λ x. x.0.items ≡ 0 ∷ tagged_head 50 0 (all_waiting rcpts.now) from.now rcpts.now) }
    ensures pen { IfOk result (λ x. x.1 ≡ record { at = 1 + length x.0.items; held = []; len = 0 }) }
{
    let head = head_bytes(alloc, from, rcpts)?;
    let pen = Pen::new(alloc, 1 + head.len() as u64)?;
    Ok((head, pen))
}

/// Writes the head behind the closed gate.
#[tactic(auto, using(crate::proofs::FillingLemmas::vacant_within, crate::proofs::ShutLemmas::vacant_shut, crate::proofs::ShutLemmas::through_free, crate::proofs::FillingLemmas::begins, crate::proofs::FillingLemmas::begins_draft))]
pub(crate) fn begin<D: Disk>(
    number: u32,
    disk: D,
    head: &[u8],
    pen: Pen,
) -> Result<Filling<D>, Broken<D>>
    requires vacant { Now IsVacant (D.disk_view disk) }
    requires pen { pen ≡ record { at = 1 + length head.now; held = []; len = 0 } }
    requires head { (from : List ℕ) × (rcpts : List (List ℕ)) × IsEnvelope from rcpts × (head.now ≡ 0 ∷ tagged_head 50 0 (all_waiting rcpts) from rcpts) }
    ensures ok { IfOk result (λ filling. IsOnward number (D.disk_view disk) filling.number filling.disk) }
    ensures pen { IfOk result (λ filling. filling.pen ≡ pen) }
    ensures draft { IfOk result (λ filling. (from : List ℕ) (rcpts : List (List ℕ)) → IsEnvelope from rcpts
        → head.now ≡ 0 ∷ tagged_head 50 0 (all_waiting rcpts) from rcpts → Drafts (begun from rcpts) filling) }
    ensures images { MatchResult result
        (λ filling. Through (EachImage IsFreeImage) (D.disk_view disk) filling.disk)
        (λ broken. Through (EachImage IsFreeImage) (D.disk_view disk) broken.disk) }
    ensures runs { (k : Known) → IsBegun k.use_of → MatchResult result
        (λ filling. Runs k (D.disk_view disk) k filling.disk)
        (λ broken. Runs k (D.disk_view disk) k broken.disk) }
    ensures err { IfErr result (λ broken. IsBrokenIn number (D.disk_view disk) broken) }
{
    let mut disk = disk;
    match fill(&mut disk, 1, head) {
        Ok(()) => Ok(Filling::of(number, disk, pen)),
        Err(Failed) => Err(Broken::by_fault(number, disk, false)),
    }
}
