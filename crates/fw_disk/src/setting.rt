ghost use Rattle.std.specs.Prelude.{◌≤◌, IfSome, OnErr, OnOk};
ghost use Rattle.fw_outside.specs.Counts.{Rose};
ghost use Rattle.fw_disk.specs.DiskView.{FailsToSet, HasSetByte, length_told};

use crate::{Disk, Failed};

/// Writes one byte at a place, which is within the file or at its end, and sees to it that a crash leaves it. If it
/// fails, a crash may leave any byte at that place, or none at the file's end.
pub fn set_byte<D: Disk>(disk: &mut D, at: u64, byte: u8) -> Result<(), Failed>
    requires { IfSome (length_told (D.disk_view disk.old)) (λ len. at ≤ len) }
    ensures ok { OnOk result (HasSetByte at byte (D.disk_view disk.old) (D.disk_view disk.new)) }
    ensures fails { OnErr result (FailsToSet at byte (D.disk_view disk.old) (D.disk_view disk.new)) }
    ensures err { OnErr result (Rose (D.disk_view disk.old).faults (D.disk_view disk.new).faults) }
{
    disk.write_at(at, &[byte])?;
    disk.sync()
}
