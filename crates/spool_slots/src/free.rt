ghost use Rattle.std.specs.Prelude.{◌≡◌, MatchResult, IfOk, IfErr, []};
ghost use Rattle.fw_disk.specs.Moments.{EachImage, Now, Through};
ghost use Rattle.slot_bytes.specs.Layout.{IsEnvelope};
ghost use Rattle.spool_law.specs.Runs.{Known, Runs};
ghost use Rattle.spool_slots.specs.Images.{IsFreeImage};
ghost use Rattle.spool_slots.specs.Media.{IsShut, IsVacant, begun};
ghost use Rattle.spool_slots.specs.Started.{IsNotBegun, LeavesFree, RunsBegun, begun_in};
ghost use Rattle.spool_slots.specs.States.{Drafts, IsOnward};

use crate::starting::{begin, prepare};
use crate::{Filling, StartFault};
use fw_disk::Disk;
use fw_types::{NoMemory, OctetsList};
use std::alloc::Global;
use std::marker::Model;

/// A slot without a message: whatever a crash leaves of it is free.
#[derive(Drop)]
pub struct Free<D: Disk> {
    number: u32,
    disk: D,
}

impl<D: Disk> Model for Free<D> {
    ghost use Rattle.fw_disk.specs.Moments.{Now};
    ghost use Rattle.spool_slots.specs.Media.{IsVacant};
    ghost use Rattle.spool_slots.specs.States.{SlotView};

    ghost Value = { SlotView };

    ghost view = { λ s. record { number = s.number; disk = D.disk_view s.disk } };

    ghost invariant = { λ s. Now IsVacant (D.disk_view s.disk) };
}

impl<D: Disk> Free<D> {
    pub(crate) fn of(number: u32, disk: D) -> Free<D>
        requires { Now IsVacant (D.disk_view disk) }
        ensures { result ≡ record { number = number; disk = D.disk_view disk } }
    {
        Free { number, disk }
    }

    /// The slot's number.
    pub fn number(&self) -> u32
        ensures { result ≡ self.now.number }
    {
        self.number
    }

    /// Begins a message from a sender of at most 256 bytes to 1 to 1,000 recipients of 1 to 256 bytes, and takes the
    /// memory that it needs until it is finished.
    #[tactic(auto, using(crate::proofs::EventLemmas::runs_begins, crate::proofs::EventLemmas::runs_same))]
    pub fn start(
        self,
        alloc: Global,
        from: &[u8],
        rcpts: &OctetsList,
    ) -> Result<Filling<D>, StartFault<D>>
        requires { IsEnvelope from.now rcpts.now }
        ensures ok { IfOk result (λ filling. IsOnward self.number self.disk filling.number filling.disk) }
        ensures empty { IfOk result (λ filling. (filling.pen.len ≡ 0) × (filling.pen.held ≡ [])) }
        ensures draft { IfOk result (λ filling. Drafts (begun from.now rcpts.now) filling) }
        ensures images { MatchResult result
            (λ filling. Through (EachImage IsFreeImage) self.disk filling.disk)
            (λ fault. LeavesFree self fault) }
        ensures events { (k : Known) → MatchResult result
            (λ filling. Runs k self.disk (begun_in k from.now rcpts.now) filling.disk)
            (λ fault. RunsBegun k from.now rcpts.now self fault) }
        ensures err { IfErr result (λ fault. IsNotBegun self fault) }
    {
        let Free { number, disk } = self;
        let (head, pen) = match prepare(alloc, from, rcpts) {
            Ok(prepared) => prepared,
            Err(NoMemory) => return Err(StartFault::NoMemory(Free::of(number, disk))),
        };
        match begin(number, disk, &head, pen) {
            Ok(filling) => Ok(filling),
            Err(broken) => Err(StartFault::Disk(broken)),
        }
    }

    /// The slot's disk.
    #[tactic(auto, using(crate::proofs::ShutLemmas::vacant_free, crate::proofs::ShutLemmas::vacant_shut))]
    pub fn into_disk(self) -> D
        ensures disk { D.disk_view result ≡ self.disk }
        ensures shut { Now IsShut self.disk }
        ensures free { Now (EachImage IsFreeImage) self.disk }
    {
        let Free { number: _, disk } = self;
        disk
    }
}
