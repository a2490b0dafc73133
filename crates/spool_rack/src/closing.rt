//! The disks of all slots, in order of their numbers.
ghost use Rattle.std.specs.Prelude.{◌≡◌, ◌+◌, ◌≤◌, [], ◌++◌, length, map, List};
ghost use Rattle.std.specs.List.Sorted.{IsPermutation, IsNonDecreasingBy};
ghost use Rattle.spool_rack.specs.Opening.{HeldView};

use crate::queue::Queue;
use fw_disk::Disk;
use spool_slots::{Aside, Broken, Free, Full};
use std::marker::Model;

/// A slot's number and its disk.
#[derive(Drop)]
pub(crate) struct Held<D: Disk> {
    number: u32,
    disk: D,
}

impl<D: Disk> Model for Held<D> {
    ghost use Rattle.spool_rack.specs.Opening.{HeldView};

    ghost Value = { HeldView };

    ghost view = { λ h. record { number = h.number; disk = D.disk_view h.disk } };
}

impl<D: Disk> Held<D> {
    fn number(&self) -> u32
        ensures { result ≡ self.now.number }
    {
        self.number
    }

    fn into_disk(self) -> D
        ensures { D.disk_view result ≡ self.disk }
    {
        let Held { number: _, disk } = self;
        disk
    }
}

/// A slot that can be taken apart.
pub(crate) trait Apart<D: Disk>: Drop {
    ghost held_view: { Self → HeldView };

    fn apart(self) -> Held<D>
        ensures { result ≡ held_view self };
}

impl<T: Disk> Apart<T> for Free<T> {
    ghost held_view = { λ s. record { number = s.number; disk = s.disk } };

    fn apart(self) -> Held<T> {
        Held {
            number: self.number(),
            disk: self.into_disk(),
        }
    }
}

impl<T: Disk> Apart<T> for Full<T> {
    ghost held_view = { λ s. record { number = s.number; disk = s.disk } };

    fn apart(self) -> Held<T> {
        Held {
            number: self.number(),
            disk: self.into_disk(),
        }
    }
}

impl<T: Disk> Apart<T> for Aside<T> {
    ghost held_view = { λ s. record { number = s.number; disk = s.disk } };

    fn apart(self) -> Held<T> {
        Held {
            number: self.number(),
            disk: self.into_disk(),
        }
    }
}

impl<T: Disk> Apart<T> for Broken<T> {
    ghost held_view = { λ s. record { number = s.number; disk = s.disk } };

    fn apart(self) -> Held<T> {
        Held {
            number: self.number(),
            disk: self.into_disk(),
        }
    }
}

// Takes all slots of a queue apart.
#[tactic(auto, using(crate::proofs::ClosingLemmas::made_space, crate::proofs::ClosingLemmas::made_less))]
pub(crate) fn pour<D: Disk, S: Apart<D>>(from: Queue<S>, held: &mut Queue<Held<D>>)
    requires { length from.items + length held.old.items ≤ held.old.room }
    ensures { held.new ≡ record { items = held.old.items ++ map S.held_view from.items; room = held.old.room } }
{
    let mut from = from;
    while let Some(slot) = from.pop() {
        held.push(slot.apart());
    }
}

// Puts them in order of their numbers.
fn sort<D: Disk>(held: Vec<Held<D>>) -> Vec<Held<D>>
    ensures same { IsPermutation held.items result.items }
    ensures rise { IsNonDecreasingBy (λ slot. slot.number) result.items }
    ensures len { length result.items ≡ length held.items }
{
    let mut held = held;
    held.sort_unstable_by_key(|slot| slot.number());
    held
}

// Their disks, in the same order.
#[tactic(auto, using(crate::proofs::ClosingLemmas::made_space, crate::proofs::ClosingLemmas::made_less))]
fn disks_of<D: Disk>(held: Queue<Held<D>>, home: Queue<D>) -> Vec<D>
    requires none { home.items ≡ [] }
    requires room { length held.items ≤ home.room }
    ensures { map D.disk_view result.items ≡ map (λ slot. slot.disk) held.items }
{
    let mut held = held;
    let mut home = home;
    while let Some(slot) = held.pop() {
        home.push(slot.into_disk());
    }
    home.into_vec()
}

/// The disks of slots that were taken apart, in order of their numbers.
pub(crate) fn in_order<D: Disk>(held: Queue<Held<D>>, home: Queue<D>) -> Vec<D>
    requires none { home.items ≡ [] }
    requires room { length held.items ≤ home.room }
    ensures { (slots : List HeldView) × IsPermutation held.items slots × IsNonDecreasingBy (λ slot. slot.number) slots
        × (map D.disk_view result.items ≡ map (λ slot. slot.disk) slots) }
{
    let slots = sort(held.into_vec());
    disks_of(Queue::of(slots), home)
}
