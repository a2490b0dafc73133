ghost use Rattle.std.specs.Prelude.{◌≡◌, MatchResult, IfOk, IfErr};
ghost use Rattle.fw_disk.specs.Moments.{EachImage, Now, Through};
ghost use Rattle.slot_bytes.specs.Layout.{Mail};
ghost use Rattle.std.specs.List.{Contains};
ghost use Rattle.spool_law.specs.World.{OfLetter};
ghost use Rattle.spool_law.specs.Runs.{Known, Runs};
ghost use Rattle.spool_slots.specs.Images.{HasMessageBehind, IsAsideImage, IsFreeImage, IsFreeOrAside};
ghost use Rattle.spool_slots.specs.Media.{IsAside};
ghost use Rattle.spool_slots.specs.States.{IsBrokenIn, IsOnward, KeepsAside};

use crate::{Broken, Free};
use fw_disk::{Disk, Failed, set_byte};
use std::marker::Model;

/// A slot with a message that was set aside.
#[derive(Drop)]
pub struct Aside<D: Disk> {
    number: u32,
    disk: D,
}

impl<D: Disk> Model for Aside<D> {
    ghost use Rattle.fw_disk.specs.Moments.{Now};
    ghost use Rattle.spool_slots.specs.Media.{IsAside};
    ghost use Rattle.spool_slots.specs.States.{SlotView};

    ghost Value = { SlotView };

    ghost view = { λ s. record { number = s.number; disk = D.disk_view s.disk } };

    ghost invariant = { λ s. Now IsAside (D.disk_view s.disk) };
}

impl<D: Disk> Aside<D> {
    pub(crate) fn of(number: u32, disk: D) -> Aside<D>
        requires { Now IsAside (D.disk_view disk) }
        ensures { result ≡ record { number = number; disk = D.disk_view disk } }
    {
        Aside { number, disk }
    }

    /// The slot's number.
    pub fn number(&self) -> u32
        ensures { result ≡ self.now.number }
    {
        self.number
    }

    /// Closes the gate: the slot is free for a message again.
    #[tactic(auto, using(crate::proofs::MarkLemmas::aside_gate, crate::proofs::MarkLemmas::release_aside_vacant, crate::proofs::MarkLemmas::release_aside_free, crate::proofs::MarkLemmas::release_aside_moments, crate::proofs::MarkLemmas::failed_release_aside_moments, crate::proofs::MarkLemmas::failed_release_aside_behind, crate::proofs::EventLemmas::runs_released, crate::proofs::EventLemmas::runs_not_released))]
    pub fn release(self) -> Result<Free<D>, Broken<D>>
        ensures ok { IfOk result (λ free. IsOnward self.number self.disk free.number free.disk) }
        ensures free { IfOk result (λ free. Now (EachImage IsFreeImage) free.disk) }
        ensures events { (k : Known) → OfLetter (Contains k.accepted) k.use_of → MatchResult result
            (λ free. Runs k self.disk k free.disk)
            (λ broken. Runs k self.disk k broken.disk) }
        ensures images { (m : Mail) → KeepsAside m self → MatchResult result
            (λ free. Through (EachImage (IsFreeOrAside m)) self.disk free.disk)
            (λ broken. Through (EachImage (IsFreeOrAside m)) self.disk broken.disk) }
        ensures message { (m : Mail) → KeepsAside m self → IfErr result
            (λ broken. Now (EachImage (HasMessageBehind m)) broken.disk) }
        ensures err { IfErr result (λ broken. IsBrokenIn self.number self.disk broken) }
    {
        let Aside { number, mut disk } = self;
        match set_byte(&mut disk, 0, 0) {
            Ok(()) => Ok(Free::of(number, disk)),
            Err(Failed) => Err(Broken::by_fault(number, disk, false)),
        }
    }

    /// The slot's disk.
    #[tactic(auto, using(crate::proofs::MarkLemmas::keeps_aside_images))]
    pub fn into_disk(self) -> D
        ensures disk { D.disk_view result ≡ self.disk }
        ensures aside { Now IsAside self.disk }
        ensures images { (m : Mail) → KeepsAside m self → Now (EachImage (IsAsideImage m)) self.disk }
    {
        let Aside { number: _, disk } = self;
        disk
    }
}
