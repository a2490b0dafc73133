ghost use Rattle.std.specs.Prelude.{◌≡◌, ◌≤◌, length, [], OnOk, OnErr, false};
ghost use Rattle.fw_disk.specs.Medium.{IsImage, cut_at, settled, synced_now, written_at};
ghost use Rattle.fw_disk.specs.DiskView.{IsTorn, changed, onward};
ghost use Rattle.fw_memory.specs.Noted.{IsNoted, lowered_to, noted_at};

use crate::medium::HeldMedium;
use crate::past::Past;
use crate::picking::are_bytes;
use fw_outside::Failed;
use fw_types::{NoMemory, Octets};
use std::alloc::Global;
use std::marker::Model;

/// The medium of a disk in memory, now and before.
#[derive(Drop)]
pub(crate) struct HeldTape {
    medium: HeldMedium,
    past: Past,
}

impl Model for HeldTape {
    ghost use Rattle.fw_disk.specs.Medium.{IsImage};
    ghost use Rattle.fw_disk.specs.DiskView.{Tape};

    ghost Value = { Tape };

    ghost view = { λ t. record { now = t.medium; past = t.past } };

    ghost invariant = { λ t. IsImage t.medium t.medium.seen };
}

impl HeldTape {
    pub(crate) fn of(alloc: Global, bytes: Octets) -> HeldTape
        ensures { result ≡ record { now = settled bytes; past = [] } }
    {
        let medium = HeldMedium::of(alloc, bytes);
        are_bytes(medium.seen());
        HeldTape {
            medium,
            past: Past::none(),
        }
    }

    pub(crate) fn medium(&self) -> &HeldMedium
        ensures is { result.now ≡ self.now.now }
        ensures sound { IsImage self.now.now self.now.now.seen }
    {
        &self.medium
    }

    // Begins a write: notes its range.
    fn begin(&mut self, at: u64, len: usize) -> Result<(), Failed>
        ensures ok { OnOk result (self.new ≡ onward (noted_at at len self.old.now) self.old) }
        ensures err { OnErr result (self.new ≡ self.old) }
        ensures sound { IsImage self.old.now self.old.now.seen }
    {
        let past = Past::after(&self.medium, &self.past);
        if self.medium.note(at, len as u64).is_err() {
            return Err(Failed);
        }
        self.past = past;
        Ok(())
    }

    /// Writes a piece, or only notes where it would stand.
    pub(crate) fn write(
        &mut self,
        alloc: Global,
        at: u64,
        piece: &[u8],
        failing: bool,
    ) -> Result<(), Failed>
        requires { at ≤ length self.old.now.seen }
        ensures ok { OnOk result (self.new ≡ changed (written_at at piece.now) self.old) }
        ensures told { OnOk result (failing ≡ false) }
        ensures err { OnErr result (IsTorn (written_at at piece.now) self.old self.new) }
        ensures noted { OnErr result (IsNoted at (length piece.now) self.old self.new) }
    {
        self.begin(at, piece.len())?;
        if failing {
            return Err(Failed);
        }
        match self.medium.lay(alloc, at as usize, piece) {
            Ok(()) => Ok(()),
            Err(NoMemory) => Err(Failed),
        }
    }

    /// Cuts the file, or only notes the length.
    pub(crate) fn cut(&mut self, alloc: Global, len: u64, failing: bool) -> Result<(), Failed>
        requires { len ≤ length self.old.now.seen }
        ensures ok { OnOk result (self.new ≡ changed (cut_at len) self.old) }
        ensures told { OnOk result (failing ≡ false) }
        ensures err { OnErr result (IsTorn (cut_at len) self.old self.new) }
        ensures noted { OnErr result (self.new ≡ onward (lowered_to len self.old.now) self.old) }
    {
        self.past = Past::after(&self.medium, &self.past);
        self.medium.lower(len);
        if failing {
            return Err(Failed);
        }
        match self.medium.shorten(alloc, len as usize) {
            Ok(()) => Ok(()),
            Err(NoMemory) => Err(Failed),
        }
    }

    /// Syncs the bytes as read.
    pub(crate) fn sync(&mut self)
        ensures { self.new ≡ changed synced_now self.old }
    {
        self.past = Past::after(&self.medium, &self.past);
        self.medium.settle();
        let _ = self.medium.seen();
    }
}
