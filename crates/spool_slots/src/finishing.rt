//! Writing the end of a message, and opening the gate.
ghost use Rattle.std.specs.Prelude.{◌≡◌, ◌≤◌, ℕ, [], length, OnOk, OnErr, IfSome, MatchResult, ◌⊎◌};
ghost use Rattle.fw_outside.specs.Counts.{Rose};
ghost use Rattle.fw_disk.specs.DiskView.{length_told};
ghost use Rattle.fw_disk.specs.Moments.{Now, Through};
ghost use Rattle.slot_bytes.specs.Layout.{Mail};
ghost use Rattle.slot_bytes.specs.Reading.Reading.{Whole};
ghost use Rattle.spool_law.specs.World.{Letter};
ghost use Rattle.spool_law.specs.World.Use.{Begun, Opened};
ghost use Rattle.spool_law.specs.Events.{IsBegun};
ghost use Rattle.spool_law.specs.Runs.{Known, Runs, used_for};
ghost use Rattle.spool_slots.specs.Filled.{HasAdded, HasLaid};
ghost use Rattle.spool_slots.specs.Media.{HasByte, IsDraft, IsFilling, IsFull, IsSettled, IsShut, IsStanding};
ghost use Rattle.spool_slots.specs.States.{Opens, OpensOrNot};

use crate::adding::{fill, write_held};
use crate::pen::Pen;
use fw_disk::{Disk, Failed, set_byte};
use slot_bytes::length_bytes;

// Writes what is held, or nothing where nothing is.
#[tactic(auto, using(crate::proofs::FillingLemmas::has_added_nothing, crate::proofs::FillingLemmas::has_added_moments, crate::proofs::EventLemmas::begun_here))]
fn write_rest<D: Disk>(disk: &mut D, pen: &mut Pen) -> Result<(), Failed>
    requires { Now (IsFilling pen.old) (D.disk_view disk.old) }
    ensures ok { OnOk result (HasAdded [] pen.old (D.disk_view disk.old) pen.new (D.disk_view disk.new)) }
    ensures empty { OnOk result (pen.new.held ≡ []) }
    ensures moments { Through IsShut (D.disk_view disk.old) (D.disk_view disk.new) }
    ensures runs { (k : Known) → IsBegun k.use_of → Runs k (D.disk_view disk.old) k (D.disk_view disk.new) }
    ensures err { OnErr result (Rose (D.disk_view disk.old).faults (D.disk_view disk.new).faults) }
{
    if pen.held().is_empty() {
        return Ok(());
    }
    write_held(disk, pen)
}

// Writes the body's length, and syncs.
#[tactic(auto, using(crate::proofs::ShutLemmas::through_fill_and_sync, crate::proofs::ShutLemmas::has_laid, crate::proofs::EventLemmas::runs_fill_and_sync))]
fn lay_length<D: Disk>(disk: &mut D, len: u32) -> Result<(), Failed>
    requires shut { Now IsShut (D.disk_view disk.old) }
    requires within { IfSome (length_told (D.disk_view disk.old)) (λ len. 6 ≤ len) }
    ensures ok { OnOk result (HasLaid len (D.disk_view disk.old) (D.disk_view disk.new)) }
    ensures moments { Through IsShut (D.disk_view disk.old) (D.disk_view disk.new) }
    ensures runs { (k : Known) → IsBegun k.use_of → Runs k (D.disk_view disk.old) k (D.disk_view disk.new) }
    ensures err { OnErr result (Rose (D.disk_view disk.old).faults (D.disk_view disk.new).faults) }
{
    fill(disk, 6, &length_bytes(len))?;
    disk.sync()
}

// Makes the message stand behind the closed gate.
#[tactic(auto, using(crate::proofs::FillingLemmas::added_shut, crate::proofs::FillingLemmas::added_length_place, crate::proofs::FinishingLemmas::stands_closed, crate::proofs::FinishingLemmas::laid_faults, crate::proofs::FinishingLemmas::closed_moments, crate::proofs::EventLemmas::runs_on))]
fn close_over<D: Disk>(disk: &mut D, pen: &mut Pen) -> Result<(), Failed>
    requires { Now (IsFilling pen.old) (D.disk_view disk.old) }
    ensures stands { OnOk result ((m : Mail) → Now (IsDraft m pen.old) (D.disk_view disk.old)
        → Now (IsStanding 0 0 m) (D.disk_view disk.new)) }
    ensures faults { OnOk result ((D.disk_view disk.new).faults ≡ (D.disk_view disk.old).faults) }
    ensures moments { Through IsShut (D.disk_view disk.old) (D.disk_view disk.new) }
    ensures runs { (k : Known) → IsBegun k.use_of → Runs k (D.disk_view disk.old) k (D.disk_view disk.new) }
    ensures err { OnErr result (Rose (D.disk_view disk.old).faults (D.disk_view disk.new).faults) }
{
    write_rest(disk, pen)?;
    lay_length(disk, pen.len())
}

/// Writes the end of the message, and opens the gate.
#[tactic(auto, using(crate::proofs::FinishingLemmas::opened_whole, crate::proofs::FinishingLemmas::opened_full, crate::proofs::FinishingLemmas::opens_ok, crate::proofs::FinishingLemmas::opens_err, crate::proofs::FinishingLemmas::opens_not, crate::proofs::FinishingLemmas::gate_place, crate::proofs::EventLemmas::runs_finished, crate::proofs::EventLemmas::runs_not_finished, crate::proofs::EventLemmas::runs_begun))]
pub(crate) fn write_whole<D: Disk>(disk: &mut D, pen: &mut Pen) -> Result<(), Failed>
    requires { Now (IsFilling pen.old) (D.disk_view disk.old) }
    ensures full { OnOk result (Now IsFull (D.disk_view disk.new)) }
    ensures whole { OnOk result ((m : Mail) → Now (IsDraft m pen.old) (D.disk_view disk.old)
        → Now (IsSettled (Whole m)) (D.disk_view disk.new)) }
    ensures gate { OnOk result (Now (HasByte 0 1) (D.disk_view disk.new)) }
    ensures faults { OnOk result ((D.disk_view disk.new).faults ≡ (D.disk_view disk.old).faults) }
    ensures images { (m : Mail) → Now (IsDraft m pen.old) (D.disk_view disk.old) → MatchResult result
        (λ _. Opens m (D.disk_view disk.old) (D.disk_view disk.new))
        (λ _. OpensOrNot m (D.disk_view disk.old) (D.disk_view disk.new)) }
    ensures runs { (k : Known) (l : Letter) → k.use_of ≡ Begun l → Now (IsDraft l.mail pen.old) (D.disk_view disk.old) → MatchResult result
        (λ _. Runs k (D.disk_view disk.old) (used_for (Opened l) k) (D.disk_view disk.new))
        (λ _. Runs k (D.disk_view disk.old) k (D.disk_view disk.new)
        ⊎ Runs k (D.disk_view disk.old) (used_for (Opened l) k) (D.disk_view disk.new)) }
    ensures err { OnErr result (Rose (D.disk_view disk.old).faults (D.disk_view disk.new).faults) }
{
    close_over(disk, pen)?;
    set_byte(disk, 0, 1)
}
