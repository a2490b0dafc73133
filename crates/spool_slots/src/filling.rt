ghost use Rattle.std.specs.Prelude.{◌≡◌, ◌+◌, ◌≤◌, ℕ, length, MatchResult, IfOk, IfErr, false, ◌⊎◌};
ghost use Rattle.fw_disk.specs.Moments.{EachImage, Now, Through};
ghost use Rattle.slot_bytes.specs.Layout.{Mail};
ghost use Rattle.spool_law.specs.World.{Letter};
ghost use Rattle.spool_law.specs.World.Use.{Begun, Opened};
ghost use Rattle.spool_law.specs.Events.{longer as longer_letter};
ghost use Rattle.spool_law.specs.Runs.{Known, Runs, used_for};
ghost use Rattle.spool_slots.specs.Images.{IsFreeImage, IsFreeOrWhole};
ghost use Rattle.spool_slots.specs.Media.{HasByte, IsFilling, longer};
ghost use Rattle.spool_slots.specs.States.{Drafts, IsBrokenIn, IsOnward, Keeps, Opens, OpensOrNot};

use crate::adding::add_all;
use crate::finishing::write_whole;
use crate::pen::Pen;
use crate::{Broken, Free, Full};
use fw_disk::{Disk, Failed};
use std::marker::Model;

/// A slot in which a message is being written: whatever a crash leaves of it is free.
#[derive(Drop)]
pub struct Filling<D: Disk> {
    number: u32,
    disk: D,
    pen: Pen,
}

impl<D: Disk> Model for Filling<D> {
    ghost use Rattle.std.specs.Prelude.{◌≤◌, length};
    ghost use Rattle.fw_disk.specs.Moments.{Now};
    ghost use Rattle.spool_slots.specs.Media.{IsFilling};
    ghost use Rattle.spool_slots.specs.States.{FillingView};

    ghost Value = { FillingView };

    ghost view = { λ s. record { number = s.number; disk = D.disk_view s.disk; pen = s.pen } };

    ghost invariant = { λ s. (Now (IsFilling s.pen) (D.disk_view s.disk)) × (length s.pen.held ≤ 8191) };
}

impl<D: Disk> Filling<D> {
    pub(crate) fn of(number: u32, disk: D, pen: Pen) -> Filling<D>
        requires filling { Now (IsFilling pen) (D.disk_view disk) }
        requires few { length pen.held ≤ 8191 }
        ensures { result ≡ record { number = number; disk = D.disk_view disk; pen = pen } }
    {
        Filling { number, disk, pen }
    }

    /// The slot's number.
    pub fn number(&self) -> u32
        ensures { result ≡ self.now.number }
    {
        self.number
    }

    /// How many bytes the body has so far.
    pub fn len(&self) -> u32
        ensures { result ≡ self.now.pen.len }
    {
        self.pen.len()
    }

    /// Adds a piece at the body's end, which stays within 67,108,864 bytes. Each full 8,192 bytes are written, and at
    /// most 8,191 are held back.
    #[tactic(auto, using(crate::proofs::ShutLemmas::through_free, crate::proofs::EventLemmas::runs_added))]
    pub fn add(self, piece: &[u8]) -> Result<Filling<D>, Broken<D>>
        requires { self.pen.len + length piece.now ≤ 67108864 }
        ensures ok { IfOk result (λ filling. IsOnward self.number self.disk filling.number filling.disk) }
        ensures len { IfOk result (λ filling. filling.pen.len ≡ self.pen.len + length piece.now) }
        ensures bound { IfOk result (λ filling. length filling.pen.held ≤ 8191) }
        ensures draft { IfOk result (λ filling. (m : Mail) → Drafts m self → Drafts (longer m piece.now) filling) }
        ensures images { MatchResult result
            (λ filling. Through (EachImage IsFreeImage) self.disk filling.disk)
            (λ broken. Through (EachImage IsFreeImage) self.disk broken.disk) }
        ensures events { (k : Known) (l : Letter) → k.use_of ≡ Begun l → MatchResult result
            (λ filling. Runs k self.disk (used_for (Begun (longer_letter piece.now l)) k) filling.disk)
            (λ broken. Runs k self.disk (used_for (Begun (longer_letter piece.now l)) k) broken.disk) }
        ensures err { IfErr result (λ broken. IsBrokenIn self.number self.disk broken) }
    {
        let Filling {
            number,
            mut disk,
            mut pen,
        } = self;
        match add_all(&mut disk, &mut pen, piece) {
            Ok(()) => Ok(Filling::of(number, disk, pen)),
            Err(Failed) => Err(Broken::by_fault(number, disk, false)),
        }
    }

    /// Writes what is held back and the body's length, and opens the gate.
    pub fn finish(self) -> Result<Full<D>, Broken<D>>
        ensures ok { IfOk result (λ full. IsOnward self.number self.disk full.number full.disk) }
        ensures read { IfOk result (λ full. full.unread ≡ false) }
        ensures whole { IfOk result (λ full. (m : Mail) → Drafts m self → Keeps m full) }
        ensures gate { IfOk result (λ full. Now (HasByte 0 1) full.disk) }
        ensures images { (m : Mail) → Drafts m self → MatchResult result
            (λ full. Opens m self.disk full.disk)
            (λ broken. OpensOrNot m self.disk broken.disk) }
        ensures events { (k : Known) (l : Letter) → k.use_of ≡ Begun l → Drafts l.mail self → MatchResult result
            (λ full. Runs k self.disk (used_for (Opened l) k) full.disk)
            (λ broken. Runs k self.disk k broken.disk ⊎ Runs k self.disk (used_for (Opened l) k) broken.disk) }
        ensures err { IfErr result (λ broken. IsBrokenIn self.number self.disk broken) }
    {
        let Filling {
            number,
            mut disk,
            mut pen,
        } = self;
        match write_whole(&mut disk, &mut pen) {
            Ok(()) => Ok(Full::of(number, disk)),
            Err(Failed) => Err(Broken::by_fault(number, disk, false)),
        }
    }

    /// Gives the message up; the disk isn't called.
    #[tactic(auto, using(crate::proofs::FillingLemmas::filling_vacant, crate::proofs::FillingLemmas::filling_free))]
    pub fn abandon(self) -> Free<D>
        ensures slot { result ≡ record { number = self.number; disk = self.disk } }
        ensures free { Now (EachImage IsFreeImage) result.disk }
    {
        let Filling {
            number,
            disk,
            pen: _,
        } = self;
        Free::of(number, disk)
    }

    /// The slot's disk.
    #[tactic(auto, using(crate::proofs::FillingLemmas::filling_free))]
    pub fn into_disk(self) -> D
        ensures disk { D.disk_view result ≡ self.disk }
        ensures free { Now (EachImage IsFreeImage) self.disk }
    {
        let Filling {
            number: _,
            disk,
            pen: _,
        } = self;
        disk
    }
}
