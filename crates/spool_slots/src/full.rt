ghost use Rattle.std.specs.Prelude.{◌≡◌, MatchResult, IfOk, IfErr, IfSome, OnOk, true, false};
ghost use Rattle.fw_disk.specs.Moments.{EachImage, Now, Through};
ghost use Rattle.slot_bytes.specs.Layout.{Mail};
ghost use Rattle.slot_bytes.specs.SlotView.{mail_view};
ghost use Rattle.std.specs.List.{Contains};
ghost use Rattle.spool_law.specs.World.{OfLetter};
ghost use Rattle.spool_law.specs.Runs.{Known, Runs};
ghost use Rattle.spool_slots.specs.Images.{HasMessageBehind, IsFreeImage, IsFreeOrWhole, IsWholeImage, IsWholeOrAside};
ghost use Rattle.spool_slots.specs.Media.{HasByte, IsFull};
ghost use Rattle.spool_slots.specs.Messages.{Leaves};
ghost use Rattle.spool_slots.specs.States.{IsBrokenFull, IsOnward, Keeps, KeepsAside};

use crate::messages::read_message;
use crate::{Aside, Broken, Free, ReadBack};
use fw_disk::{Disk, Failed, set_byte};
use slot_bytes::Message;
use std::alloc::Global;
use std::marker::Model;

/// A slot with a message.
#[derive(Drop)]
pub struct Full<D: Disk> {
    number: u32,
    disk: D,
    unread: bool,
}

impl<D: Disk> Model for Full<D> {
    ghost use Rattle.fw_disk.specs.Moments.{Now};
    ghost use Rattle.spool_slots.specs.Media.{IsFull};
    ghost use Rattle.spool_slots.specs.States.{FullView};

    ghost Value = { FullView };

    ghost view = { λ s. record { number = s.number; disk = D.disk_view s.disk; unread = s.unread } };

    ghost invariant = { λ s. Now IsFull (D.disk_view s.disk) };
}

impl<D: Disk> Full<D> {
    pub(crate) fn of(number: u32, disk: D) -> Full<D>
        requires { Now IsFull (D.disk_view disk) }
        ensures { result ≡ record { number = number; disk = D.disk_view disk; unread = false } }
    {
        Full {
            number,
            disk,
            unread: false,
        }
    }

    /// The slot's number.
    pub fn number(&self) -> u32
        ensures { result ≡ self.now.number }
    {
        self.number
    }

    /// Reads the message. If the disk fails, the slot stays as it is and is unread.
    #[tactic(auto, using(crate::proofs::EventLemmas::runs_only_read))]
    pub fn message(&mut self, alloc: Global) -> Result<Message, ReadBack>
        ensures message { IfOk result (λ message. (m : Mail) → Keeps m self.old
            → IfSome self.old.disk.told (λ _. mail_view message ≡ m)) }
        ensures events { (k : Known) → Runs k self.old.disk k self.new.disk }
        ensures number { self.new.number ≡ self.old.number }
        ensures told { self.new.disk.told ≡ self.old.disk.told }
        ensures ok { OnOk result (self.new.disk.faults ≡ self.old.disk.faults) }
        ensures read { OnOk result (self.new.unread ≡ self.old.unread) }
        ensures full { Now IsFull self.old.disk }
        ensures err { IfErr result (λ fault. Leaves fault self.old self.new) }
    {
        match read_message(alloc, &mut self.disk) {
            Ok(message) => Ok(message),
            Err(ReadBack::DiskFault) => {
                self.unread = true;
                Err(ReadBack::DiskFault)
            }
            Err(ReadBack::NoMemory) => Err(ReadBack::NoMemory),
        }
    }

    /// Gives up a slot that couldn't be read; the disk isn't called.
    pub fn into_broken(self) -> Broken<D>
        requires { self.unread ≡ true }
        ensures { result ≡ record {
          number = self.number;
          disk = self.disk;
          from_full = true;
          from_fault = true;
        } }
    {
        let Full {
            number,
            disk,
            unread: _,
        } = self;
        Broken::by_fault(number, disk, true)
    }

    /// Sets the message aside.
    #[tactic(auto, using(crate::proofs::MarkLemmas::full_mark, crate::proofs::MarkLemmas::set_aside_ok, crate::proofs::MarkLemmas::set_aside_some, crate::proofs::MarkLemmas::set_aside_mark, crate::proofs::MarkLemmas::set_aside_moments, crate::proofs::MarkLemmas::failed_aside_moments, crate::proofs::MarkLemmas::failed_aside_behind, crate::proofs::EventLemmas::runs_set_aside, crate::proofs::EventLemmas::runs_not_set_aside))]
    pub fn set_aside(self) -> Result<Aside<D>, Broken<D>>
        ensures ok { IfOk result (λ aside. IsOnward self.number self.disk aside.number aside.disk) }
        ensures aside { IfOk result (λ aside. (m : Mail) → Keeps m self → KeepsAside m aside) }
        ensures mark { IfOk result (λ aside. Now (HasByte 1 1) aside.disk) }
        ensures events { (k : Known) → MatchResult result
            (λ aside. Runs k self.disk k aside.disk)
            (λ broken. Runs k self.disk k broken.disk) }
        ensures images { (m : Mail) → Keeps m self → MatchResult result
            (λ aside. Through (EachImage (IsWholeOrAside m)) self.disk aside.disk)
            (λ broken. Through (EachImage (IsWholeOrAside m)) self.disk broken.disk) }
        ensures message { (m : Mail) → Keeps m self → IfErr result
            (λ broken. Now (EachImage (HasMessageBehind m)) broken.disk) }
        ensures err { IfErr result (λ broken. IsBrokenFull self.number self.disk broken) }
    {
        let Full {
            number,
            mut disk,
            unread: _,
        } = self;
        match set_byte(&mut disk, 1, 1) {
            Ok(()) => Ok(Aside::of(number, disk)),
            Err(Failed) => Err(Broken::by_fault(number, disk, true)),
        }
    }

    /// Closes the gate: the slot is free for a message again.
    #[tactic(auto, using(crate::proofs::MarkLemmas::full_gate, crate::proofs::MarkLemmas::release_vacant, crate::proofs::MarkLemmas::release_free, crate::proofs::MarkLemmas::release_moments, crate::proofs::MarkLemmas::failed_release_moments, crate::proofs::MarkLemmas::failed_release_behind, crate::proofs::EventLemmas::runs_released, crate::proofs::EventLemmas::runs_not_released))]
    pub fn release(self) -> Result<Free<D>, Broken<D>>
        ensures ok { IfOk result (λ free. IsOnward self.number self.disk free.number free.disk) }
        ensures free { IfOk result (λ free. Now (EachImage IsFreeImage) free.disk) }
        ensures events { (k : Known) → OfLetter (Contains k.accepted) k.use_of → MatchResult result
            (λ free. Runs k self.disk k free.disk)
            (λ broken. Runs k self.disk k broken.disk) }
        ensures images { (m : Mail) → Keeps m self → MatchResult result
            (λ free. Through (EachImage (IsFreeOrWhole m)) self.disk free.disk)
            (λ broken. Through (EachImage (IsFreeOrWhole m)) self.disk broken.disk) }
        ensures message { (m : Mail) → Keeps m self → IfErr result
            (λ broken. Now (EachImage (HasMessageBehind m)) broken.disk) }
        ensures err { IfErr result (λ broken. IsBrokenFull self.number self.disk broken) }
    {
        let Full {
            number,
            mut disk,
            unread: _,
        } = self;
        match set_byte(&mut disk, 0, 0) {
            Ok(()) => Ok(Free::of(number, disk)),
            Err(Failed) => Err(Broken::by_fault(number, disk, true)),
        }
    }

    /// The slot's disk.
    #[tactic(auto, using(crate::proofs::MarkLemmas::keeps_images))]
    pub fn into_disk(self) -> D
        ensures disk { D.disk_view result ≡ self.disk }
        ensures full { Now IsFull self.disk }
        ensures whole { (m : Mail) → Keeps m self → Now (EachImage (IsWholeImage m)) self.disk }
    {
        let Full {
            number: _,
            disk,
            unread: _,
        } = self;
        disk
    }
}
