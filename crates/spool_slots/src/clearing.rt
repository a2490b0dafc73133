ghost use Rattle.std.specs.Prelude.{◌≡◌, IfOk, IfErr, MatchResult, OnOk, OnErr};
ghost use Rattle.fw_outside.specs.Counts.{Rose};
ghost use Rattle.fw_disk.specs.Moments.{EachImage, Now};
ghost use Rattle.spool_slots.specs.Images.{IsFreeImage};
ghost use Rattle.spool_slots.specs.States.{HasCleared, IsBrokenIn, IsFormatted, StillTells};

use crate::{Broken, Free};
use fw_disk::{Disk, Failed};

// Makes the disk two synced zeros.
#[tactic(auto, using(crate::proofs::ClearingLemmas::from_the_start, crate::proofs::ClearingLemmas::has_cleared, crate::proofs::ClearingLemmas::cut_tells, crate::proofs::ClearingLemmas::write_tells, crate::proofs::ClearingLemmas::clear_tells))]
fn clear<D: Disk>(disk: &mut D) -> Result<(), Failed>
    ensures ok { OnOk result (HasCleared (D.disk_view disk.old) (D.disk_view disk.new)) }
    ensures tells { StillTells (D.disk_view disk.old) (D.disk_view disk.new) }
    ensures err { OnErr result (Rose (D.disk_view disk.old).faults (D.disk_view disk.new).faults) }
{
    disk.cut(0)?;
    disk.write_at(0, &[0, 0])?;
    disk.sync()
}

/// The same of a disk that stays where it is: a free slot, whatever a crash leaves of it. Where the disk fails, anything
/// may stand on it.
#[tactic(auto, using(crate::proofs::ShutLemmas::told_vacant, crate::proofs::ShutLemmas::vacant_free))]
pub fn format_in_place<D: Disk>(disk: &mut D) -> Result<(), Failed>
    ensures ok { OnOk result (HasCleared (D.disk_view disk.old) (D.disk_view disk.new)) }
    ensures images { OnOk result (Now (EachImage IsFreeImage) (D.disk_view disk.new)) }
    ensures tells { StillTells (D.disk_view disk.old) (D.disk_view disk.new) }
    ensures err { OnErr result (Rose (D.disk_view disk.old).faults (D.disk_view disk.new).faults) }
{
    clear(disk)
}

/// Makes a free slot of any disk: what stood on it is lost.
#[tactic(auto, using(crate::proofs::ShutLemmas::told_vacant, crate::proofs::ShutLemmas::vacant_free))]
pub fn format<D: Disk>(number: u32, disk: D) -> Result<Free<D>, Broken<D>>
    ensures ok { IfOk result (λ free. IsFormatted number (D.disk_view disk) free) }
    ensures images { IfOk result (λ free. Now (EachImage IsFreeImage) free.disk) }
    ensures tells { MatchResult result
        (λ free. StillTells (D.disk_view disk) free.disk)
        (λ broken. StillTells (D.disk_view disk) broken.disk) }
    ensures err { IfErr result (λ broken. IsBrokenIn number (D.disk_view disk) broken) }
{
    let mut disk = disk;
    match clear(&mut disk) {
        Ok(()) => Ok(Free::of(number, disk)),
        Err(Failed) => Err(Broken::by_fault(number, disk, false)),
    }
}
