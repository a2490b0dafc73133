ghost use Rattle.std.specs.Prelude.{◌≡◌, ◌+◌, ◌≤◌, [], ◌++◌, length, IfOk};

use fw_types::NoMemory;
use std::alloc::Global;
use std::marker::Model;

/// How many bytes of a body are written at once.
pub(crate) const BLOCK: usize = 8192;

/// How far a message is written: where the next bytes go, and the end of its body that is held back until then.
#[derive(Drop)]
pub(crate) struct Pen {
    at: u64,
    held: Vec<u8>,
    len: u32,
}

impl Model for Pen {
    ghost use Rattle.std.specs.Prelude.{◌+◌, ◌≤◌, vec_len};
    ghost use Rattle.std.specs.Vec.{vec_capacity};
    ghost use Rattle.spool_slots.specs.Media.{Pen};

    ghost Value = { Pen };

    ghost view = { λ p. record { at = p.at; held = p.held.items; len = p.len } };

    ghost invariant = { λ p. (8192 ≤ vec_capacity p.held) × (vec_len p.held ≤ 8192) × (1 ≤ p.at)
        × (p.at + vec_len p.held ≤ 300000 + p.len) };
}

impl Pen {
    /// At this place, with nothing held.
    pub(crate) fn new(alloc: Global, at: u64) -> Result<Pen, NoMemory>
        requires behind { 1 ≤ at }
        requires small { at ≤ 300000 }
        ensures { IfOk result (λ pen. pen ≡ record { at = at; held = []; len = 0 }) }
    {
        let held = Vec::with_capacity(alloc, BLOCK)?;
        Ok(Pen { at, held, len: 0 })
    }

    pub(crate) fn at(&self) -> u64
        ensures at { result ≡ self.now.at }
        ensures behind { 1 ≤ self.now.at }
    {
        self.at
    }

    pub(crate) fn held(&self) -> &[u8]
        ensures held { result.now ≡ self.now.held }
        ensures room { length self.now.held ≤ 8192 }
    {
        self.held.as_slice()
    }

    pub(crate) fn len(&self) -> u32
        ensures { result ≡ self.now.len }
    {
        self.len
    }

    /// Holds these bytes too.
    pub(crate) fn hold(&mut self, bytes: &[u8])
        requires room { length self.old.held + length bytes.now ≤ 8192 }
        requires small { self.old.len + length bytes.now ≤ 67108864 }
        ensures { self.new ≡ record {
          at = self.old.at;
          held = self.old.held ++ bytes.now;
          len = self.old.len + length bytes.now;
        } }
    {
        if self.held.extend_from_slice(bytes).is_err() {
            unreachable!()
        }
        self.len += bytes.len() as u32;
    }

    /// What was held is written.
    pub(crate) fn move_on(&mut self)
        ensures { self.new ≡ record {
          at = self.old.at + length self.old.held;
          held = [];
          len = self.old.len;
        } }
    {
        self.at += self.held.len() as u64;
        self.held.clear();
    }
}
