ghost use Rattle.std.specs.Prelude.{◌≡◌, ◌≤◌, length, OnOk, OnErr, take};
ghost use Rattle.fw_disk.specs.Medium.{laid_over, settled, synced_now};
ghost use Rattle.fw_memory.specs.Noted.{noted_at, lowered_to};

use fw_types::{NoMemory, Octets};
use std::alloc::Global;
use std::marker::Model;
use std::mem;

/// The bytes as read: the synced ones, or others.
#[derive(Drop)]
pub(crate) enum Seen {
    Synced,
    Changed(Vec<u8>),
}

/// What a disk in memory holds: the synced bytes, the bytes as read where they were changed since, the ranges written
/// since, and the least and the greatest length since.
#[derive(Drop)]
pub(crate) struct HeldMedium {
    synced: Octets,
    seen: Seen,
    written: Vec<(u64, u64)>,
    least: u64,
    greatest: u64,
}

impl Model for HeldMedium {
    ghost use Rattle.fw_disk.specs.Medium.{Medium};

    ghost Value = { Medium };

    ghost use Rattle.fw_memory.specs.HeldMedium.{seen_of};

    ghost view = { λ m. record {
      seen = seen_of m.seen m.synced;
      synced = m.synced;
      written = m.written.items;
      least = m.least;
      greatest = m.greatest;
    } };
}

// Lays the piece over the bytes from a place on.
fn lay_over(bytes: &mut Vec<u8>, at: usize, piece: &[u8]) -> Result<(), NoMemory>
    requires { at ≤ length bytes.old.items }
    ensures ok { OnOk result (bytes.new.items ≡ laid_over at piece.now bytes.old.items) }
    ensures err { OnErr result (bytes.new.items ≡ bytes.old.items) }
{
    let stands = piece.len().min(bytes.len() - at);
    bytes.extend_from_slice(&piece[stands..])?;
    bytes[at..at + stands].copy_from_slice(&piece[..stands]);
    Ok(())
}

impl HeldMedium {
    /// Of bytes that are all synced. What is noted later is kept in memory of `alloc`.
    pub(crate) fn of(alloc: Global, bytes: Octets) -> HeldMedium
        ensures { result ≡ settled bytes }
    {
        let len = bytes.bytes().len() as u64;
        HeldMedium {
            synced: bytes,
            seen: Seen::Synced,
            written: Vec::new(alloc),
            least: len,
            greatest: len,
        }
    }

    /// The bytes as read.
    pub(crate) fn seen(&self) -> &[u8]
        ensures { result.now ≡ self.now.seen }
    {
        match &self.seen {
            Seen::Changed(bytes) => bytes,
            Seen::Synced => self.synced.bytes(),
        }
    }

    /// The bytes of the last sync.
    pub(crate) fn synced(&self) -> &[u8]
        ensures { result.now ≡ self.now.synced }
    {
        self.synced.bytes()
    }

    /// The ranges written since the sync.
    pub(crate) fn written(&self) -> &[(u64, u64)]
        ensures { result.now ≡ self.now.written }
    {
        &self.written
    }

    /// The least and the greatest length since the sync.
    pub(crate) fn lengths(&self) -> (u64, u64)
        ensures { result ≡ (self.now.least, self.now.greatest) }
    {
        (self.least, self.greatest)
    }

    /// Notes a range as written.
    pub(crate) fn note(&mut self, at: u64, len: u64) -> Result<(), NoMemory>
        ensures ok { OnOk result (self.new ≡ noted_at at len self.old) }
        ensures err { OnErr result (self.new ≡ self.old) }
    {
        let Some(end) = at.checked_add(len) else {
            return Err(NoMemory);
        };
        self.written.push((at, len))?;
        self.greatest = self.greatest.max(end);
        Ok(())
    }

    /// Notes a length that the file may have.
    pub(crate) fn lower(&mut self, len: u64)
        ensures { self.new ≡ lowered_to len self.old }
    {
        self.least = self.least.min(len);
    }

    /// Lays a piece over the bytes as read.
    pub(crate) fn lay(&mut self, alloc: Global, at: usize, piece: &[u8]) -> Result<(), NoMemory>
        requires { at ≤ length self.old.seen }
        ensures ok { OnOk result (self.new ≡ record self.old { seen = laid_over at piece.now self.old.seen }) }
        ensures err { OnErr result (self.new ≡ self.old) }
    {
        match &mut self.seen {
            Seen::Changed(bytes) => lay_over(bytes, at, piece),
            Seen::Synced => {
                let mut bytes = Vec::from_slice(alloc, self.synced.bytes())?;
                lay_over(&mut bytes, at, piece)?;
                self.seen = Seen::Changed(bytes);
                Ok(())
            }
        }
    }

    /// Cuts the bytes as read.
    pub(crate) fn shorten(&mut self, alloc: Global, len: usize) -> Result<(), NoMemory>
        requires { len ≤ length self.old.seen }
        ensures ok { OnOk result (self.new ≡ record self.old { seen = take len self.old.seen }) }
        ensures err { OnErr result (self.new ≡ self.old) }
    {
        match &mut self.seen {
            Seen::Changed(bytes) => {
                bytes.truncate(len);
                Ok(())
            }
            Seen::Synced => {
                let bytes = Vec::from_slice(alloc, &self.synced.bytes()[..len])?;
                self.seen = Seen::Changed(bytes);
                Ok(())
            }
        }
    }

    /// From now on the bytes as read are synced, and nothing was done since.
    pub(crate) fn settle(&mut self)
        ensures { self.new ≡ synced_now self.old }
    {
        if let Seen::Changed(bytes) = mem::replace(&mut self.seen, Seen::Synced) {
            self.synced = Octets::of(bytes);
        }
        let len = self.synced.bytes().len() as u64;
        self.written.clear();
        self.least = len;
        self.greatest = len;
    }
}
