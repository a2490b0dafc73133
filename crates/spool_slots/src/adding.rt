//! Writing a message behind the closed gate.
ghost use Rattle.std.specs.Prelude.{◌≡◌, ◌+◌, ◌≤◌, [], length, OnOk, OnErr, IfSome, option_map};
ghost use Rattle.fw_outside.specs.Counts.{Rose};
ghost use Rattle.fw_disk.specs.Medium.{written_at};
ghost use Rattle.fw_disk.specs.DiskView.{changed, length_told};
ghost use Rattle.fw_disk.specs.Moments.{Now, Through};
ghost use Rattle.spool_law.specs.Events.{IsBegun};
ghost use Rattle.spool_law.specs.Runs.{Known, Runs};
ghost use Rattle.spool_slots.specs.Filled.{HasAdded};
ghost use Rattle.spool_slots.specs.Media.{IsFilling, IsShut};

use crate::pen::{BLOCK, Pen};
use fw_disk::{Disk, Failed};

/// Writes behind the closed gate.
#[tactic(auto, using(crate::proofs::ShutLemmas::through_fill))]
pub(crate) fn fill<D: Disk>(disk: &mut D, at: u64, bytes: &[u8]) -> Result<(), Failed>
    requires shut { Now IsShut (D.disk_view disk.old) }
    requires behind { 1 ≤ at }
    requires within { IfSome (length_told (D.disk_view disk.old)) (λ len. at ≤ len) }
    ensures moments { Through IsShut (D.disk_view disk.old) (D.disk_view disk.new) }
    ensures runs { (k : Known) → IsBegun k.use_of → Runs k (D.disk_view disk.old) k (D.disk_view disk.new) }
    ensures ok { OnOk result (D.disk_view disk.new ≡ record (D.disk_view disk.old) {
      told = option_map (changed (written_at at bytes.now)) (D.disk_view disk.old).told;
    }) }
    ensures err { OnErr result (Rose (D.disk_view disk.old).faults (D.disk_view disk.new).faults) }
{
    disk.write_at(at, bytes)
}

/// Writes what is held.
#[tactic(auto, using(crate::proofs::FillingLemmas::has_written, crate::proofs::FillingLemmas::filling_shut, crate::proofs::FillingLemmas::filling_within))]
pub(crate) fn write_held<D: Disk>(disk: &mut D, pen: &mut Pen) -> Result<(), Failed>
    requires { Now (IsFilling pen.old) (D.disk_view disk.old) }
    ensures ok { OnOk result (HasAdded [] pen.old (D.disk_view disk.old) pen.new (D.disk_view disk.new)) }
    ensures empty { OnOk result (pen.new.held ≡ []) }
    ensures moments { Through IsShut (D.disk_view disk.old) (D.disk_view disk.new) }
    ensures runs { (k : Known) → IsBegun k.use_of → Runs k (D.disk_view disk.old) k (D.disk_view disk.new) }
    ensures err { OnErr result (Rose (D.disk_view disk.old).faults (D.disk_view disk.new).faults) }
{
    fill(disk, pen.at(), pen.held())?;
    pen.move_on();
    Ok(())
}

// Holds a piece for which there is room.
#[tactic(auto, using(crate::proofs::FillingLemmas::has_held))]
fn hold<D: Disk>(disk: &D, pen: &mut Pen, piece: &[u8])
    requires filling { Now (IsFilling pen.old) (D.disk_view disk.now) }
    requires room { length pen.old.held + length piece.now ≤ 8192 }
    requires small { pen.old.len + length piece.now ≤ 67108864 }
    ensures added { HasAdded piece.now pen.old (D.disk_view disk.now) pen.new (D.disk_view disk.now) }
    ensures held { length pen.new.held ≡ length pen.old.held + length piece.now }
{
    pen.hold(piece);
}

// Fills the block that is held, and writes it.
#[tactic(auto, using(crate::proofs::FillingLemmas::has_added_block))]
fn write_block<D: Disk>(disk: &mut D, pen: &mut Pen, piece: &[u8]) -> Result<(), Failed>
    requires filling { Now (IsFilling pen.old) (D.disk_view disk.old) }
    requires room { length pen.old.held + length piece.now ≤ 8192 }
    requires small { pen.old.len + length piece.now ≤ 67108864 }
    ensures ok { OnOk result (HasAdded piece.now pen.old (D.disk_view disk.old) pen.new (D.disk_view disk.new)) }
    ensures empty { OnOk result (pen.new.held ≡ []) }
    ensures moments { Through IsShut (D.disk_view disk.old) (D.disk_view disk.new) }
    ensures runs { (k : Known) → IsBegun k.use_of → Runs k (D.disk_view disk.old) k (D.disk_view disk.new) }
    ensures err { OnErr result (Rose (D.disk_view disk.old).faults (D.disk_view disk.new).faults) }
{
    hold(disk, pen, piece);
    write_held(disk, pen)
}

/// Adds a piece, and writes each full block.
#[tactic(auto, using(crate::proofs::FillingLemmas::front_none, crate::proofs::FillingLemmas::front_more, crate::proofs::FillingLemmas::front_all, crate::proofs::FillingLemmas::front_filling, crate::proofs::FillingLemmas::front_moments, crate::proofs::FillingLemmas::front_fits, crate::proofs::EventLemmas::runs_on, crate::proofs::EventLemmas::begun_here))]
pub(crate) fn add_all<D: Disk>(disk: &mut D, pen: &mut Pen, piece: &[u8]) -> Result<(), Failed>
    requires filling { Now (IsFilling pen.old) (D.disk_view disk.old) }
    requires few { length pen.old.held ≤ 8191 }
    requires small { pen.old.len + length piece.now ≤ 67108864 }
    ensures ok { OnOk result (HasAdded piece.now pen.old (D.disk_view disk.old) pen.new (D.disk_view disk.new)) }
    ensures few { OnOk result (length pen.new.held ≤ 8191) }
    ensures moments { Through IsShut (D.disk_view disk.old) (D.disk_view disk.new) }
    ensures runs { (k : Known) → IsBegun k.use_of → Runs k (D.disk_view disk.old) k (D.disk_view disk.new) }
    ensures err { OnErr result (Rose (D.disk_view disk.old).faults (D.disk_view disk.new).faults) }
{
    let mut rest = piece;
    while rest.len() >= BLOCK - pen.held().len() {
        let (block, after) = rest.split_at(BLOCK - pen.held().len());
        write_block(disk, pen, block)?;
        rest = after;
    }
    hold(disk, pen, rest);
    Ok(())
}
