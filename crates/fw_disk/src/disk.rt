ghost use Rattle.std.specs.Prelude.{◌≡◌, ◌≤◌, length, None, IfSome};
ghost use Rattle.fw_outside.specs.Counts.{Rose};
ghost use Rattle.fw_disk.specs.Medium.{cut_at, written_at};
ghost use Rattle.fw_disk.specs.DiskView.{DiskView, Changes, Doubts, Reads, Syncs, length_told};

use crate::Failed;

/// A file outside, of which a crash may leave what its media say.
pub trait Disk: Drop {
    /// The medium now and before, where the disk tells, and the count of failures.
    ghost disk_view: { Self → DiskView };

    /// Reads the bytes that stand from a place on, as many as fit into the buffer; none at the end or past it.
    fn read(&mut self, at: u64, buf: &mut [u8]) -> Result<usize, Failed>
        ensures { Reads result at (length buf.old) buf.new (disk_view self.old) (disk_view self.new) };

    /// Writes the bytes from a place on, which is within the file or at its end. Where it fails, any part of them may
    /// stand there, and in their range anything.
    fn write_at(&mut self, at: u64, bytes: &[u8]) -> Result<(), Failed>
        requires { IfSome (length_told (disk_view self.old)) (λ len. at ≤ len) }
        ensures { Changes result (written_at at bytes.now) (disk_view self.old) (disk_view self.new) };

    /// Cuts the file at a length that it has or is below its own.
    fn cut(&mut self, len: u64) -> Result<(), Failed>
        requires { IfSome (length_told (disk_view self.old)) (λ now. len ≤ now) }
        ensures { Changes result (cut_at len) (disk_view self.old) (disk_view self.new) };

    /// Sees to it that a crash leaves the bytes as read.
    fn sync(&mut self) -> Result<(), Failed>
        ensures { Syncs result (disk_view self.old) (disk_view self.new) };

    /// Counts a failure: the bytes that were read are none that this disk can hold. Of a disk that tells what it holds
    /// nobody can say so.
    fn doubt(&mut self)
        requires { (disk_view self.old).told ≡ None }
        ensures { Doubts (disk_view self.old) (disk_view self.new) };
}
