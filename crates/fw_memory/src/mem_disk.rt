ghost use Rattle.std.specs.Prelude.{◌≡◌, ◌≤◌, ℕ, length, not, is_ok, false, [], None, IfOk, OnErr, OnOk};
ghost use Rattle.fw_outside.specs.Counts.{Rose, counted};
ghost use Rattle.fw_disk.specs.Medium.{IsImage, cut_at, settled, written_at};
ghost use Rattle.fw_disk.specs.DiskView.{Changes, Doubts, IsFront, Reads, Syncs, onward};
ghost use Rattle.fw_memory.specs.CallsView.{comes_at};
ghost use Rattle.fw_memory.specs.MemDiskView.{CountsCall, disk_view_of, picked};
ghost use Rattle.fw_memory.specs.Noted.{IsNoted, lowered_to};

use crate::Calls;
use crate::picking::picked;
use crate::tape::HeldTape;
use fw_disk::Disk;
use fw_outside::Failed;
use fw_types::{NoMemory, Octets};
use std::alloc::Global;
use std::marker::Model;

/// A disk in memory, which fails at the calls that it is told, and where it has no memory for a change. It tells all its
/// media.
#[derive(Drop)]
pub struct MemDisk {
    alloc: Global,
    tape: HeldTape,
    fails: Calls,
    calls: u64,
    faults: u64,
}

impl Model for MemDisk {
    ghost use Rattle.fw_memory.specs.MemDiskView.{MemDiskView};

    ghost Value = { MemDiskView };

    ghost view = { λ d. record { tape = d.tape; fails = d.fails; calls = d.calls; faults = d.faults } };
}

// Reads the bytes from a place on into the buffer, as many as fit.
fn read_front(seen: &[u8], at: u64, buf: &mut [u8]) -> usize
    ensures fits { result ≤ length buf.old }
    ensures front { IsFront result at (length buf.old) buf.new seen.now }
{
    let start = at.min(seen.len() as u64) as usize;
    let count = buf.len().min(seen.len() - start);
    buf[..count].copy_from_slice(&seen[start..start + count]);
    count
}

impl MemDisk {
    /// A disk with these bytes, which are synced. The calls of its methods are counted together, but for `doubt`, and
    /// those in `fails` fail: a read and a sync then do nothing, and of a write or a cut nothing is read, though a crash
    /// may leave any of it. Memory comes from `alloc`.
    pub fn new(alloc: Global, bytes: Octets, fails: Calls) -> MemDisk
        ensures { result ≡ record {
          tape = record { now = settled bytes; past = [] };
          fails = fails;
          calls = 0;
          faults = 0;
        } }
    {
        MemDisk {
            alloc,
            tape: HeldTape::of(alloc, bytes),
            fails,
            calls: 0,
            faults: 0,
        }
    }

    /// The bytes as read.
    pub fn bytes(&self) -> &[u8]
        ensures { result.now ≡ self.now.tape.now.seen }
    {
        self.tape.medium().seen()
    }

    /// A disk that holds the image which the number picks, and is told to fail no call. 0 picks the bytes as read.
    pub fn crash(self, pick: u64) -> Result<MemDisk, NoMemory>
        ensures is { IfOk result (λ disk. disk ≡ record {
          tape = record { now = settled (picked self.tape.now pick); past = [] };
          fails = record { listed = []; onward = None };
          calls = 0;
          faults = 0;
        }) }
        ensures image { IfOk result (λ disk. IsImage self.tape.now disk.tape.now.seen) }
    {
        let bytes = picked(self.alloc, self.tape.medium(), pick)?;
        Ok(MemDisk::new(self.alloc, Octets::of(bytes), Calls::none()))
    }

    // One more call, which is told to fail or not.
    fn is_failing(&mut self) -> bool
        ensures answer { result ≡ comes_at self.old.fails self.old.calls }
        ensures is { self.new ≡ record self.old { calls = counted self.old.calls } }
    {
        let call = self.calls;
        self.calls = call.saturating_add(1);
        self.fails.contains(call)
    }

    fn fail(&mut self) -> Failed
        ensures rose { Rose self.old.faults self.new.faults }
        ensures is { self.new ≡ record self.old { faults = counted self.old.faults } }
    {
        self.faults = self.faults.saturating_add(1);
        Failed
    }
}

impl Disk for MemDisk {
    ghost disk_view = { disk_view_of };

    fn read(&mut self, at: u64, buf: &mut [u8]) -> Result<usize, Failed>
        ensures reads { Reads result at (length buf.old) buf.new (disk_view_of self.old) (disk_view_of self.new) }
        ensures answer { is_ok result ≡ not (comes_at self.old.fails self.old.calls) }
        ensures once { CountsCall self.old self.new }
    {
        if self.is_failing() {
            return Err(self.fail());
        }
        Ok(read_front(self.tape.medium().seen(), at, buf))
    }

    fn write_at(&mut self, at: u64, bytes: &[u8]) -> Result<(), Failed>
        requires { at ≤ length self.old.tape.now.seen }
        ensures changes { Changes result (written_at at bytes.now) (disk_view_of self.old) (disk_view_of self.new) }
        ensures noted { OnErr result (IsNoted at (length bytes.now) self.old.tape self.new.tape) }
        ensures answer { OnOk result (comes_at self.old.fails self.old.calls ≡ false) }
        ensures once { CountsCall self.old self.new }
    {
        let failing = self.is_failing();
        match self.tape.write(self.alloc, at, bytes, failing) {
            Ok(()) => Ok(()),
            Err(Failed) => Err(self.fail()),
        }
    }

    fn cut(&mut self, len: u64) -> Result<(), Failed>
        requires { len ≤ length self.old.tape.now.seen }
        ensures changes { Changes result (cut_at len) (disk_view_of self.old) (disk_view_of self.new) }
        ensures noted { OnErr result (self.new.tape ≡ onward (lowered_to len self.old.tape.now) self.old.tape) }
        ensures answer { OnOk result (comes_at self.old.fails self.old.calls ≡ false) }
        ensures once { CountsCall self.old self.new }
    {
        let failing = self.is_failing();
        match self.tape.cut(self.alloc, len, failing) {
            Ok(()) => Ok(()),
            Err(Failed) => Err(self.fail()),
        }
    }

    fn sync(&mut self) -> Result<(), Failed>
        ensures syncs { Syncs result (disk_view_of self.old) (disk_view_of self.new) }
        ensures answer { is_ok result ≡ not (comes_at self.old.fails self.old.calls) }
        ensures once { CountsCall self.old self.new }
    {
        let _ = self.tape.medium();
        if self.is_failing() {
            return Err(self.fail());
        }
        self.tape.sync();
        Ok(())
    }

    // Who knows that this disk tells what it holds has no cause to call it.
    fn doubt(&mut self)
        ensures doubts { Doubts (disk_view_of self.old) (disk_view_of self.new) }
        ensures same { self.new ≡ record self.old { faults = self.new.faults } }
    {
        let _ = self.fail();
    }
}
