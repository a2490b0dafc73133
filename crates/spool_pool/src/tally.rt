//! What the seats of a pass did, and the slots that are out, which only contracts know: they take no room when the program
//! runs.
ghost use Rattle.std.specs.Prelude.{◌≡◌, [], false, true, Some, None};
ghost use Rattle.spool_rack.specs.Store.{loan_of};
ghost use Rattle.spool_pool.specs.Tally.{after};
ghost use Rattle.spool_pool.specs.Events.{TallyView, broken_by, filled_by, freed_by, given, joined, lent, shelved_by};

use fw_disk::Disk;
use spool_rack::{Aside, Broken, Free, Full};
use std::marker::Model;
use std::snapshot::Snapshot;

#[derive(Drop)]
enum Step<D: Disk> {
    TookFree(Snapshot<Free<D>>),
    TookFull(Snapshot<Full<D>>),
    PutFree(Snapshot<Free<D>>),
    PutFull(Snapshot<Full<D>>),
    PutAside(Snapshot<Aside<D>>),
    PutBroken(Snapshot<Broken<D>>),
    Met,
}

// A step, the steps before it, and those of another tally, which are none unless the two have met.
#[cycle(tally)]
#[derive(Drop)]
struct Link<D: Disk> {
    before: Snapshot<Snapshot<Steps<D>>>,
    other: Snapshot<Snapshot<Steps<D>>>,
    step: Step<D>,
}

// The steps so far, each of which leads back to those before it.
#[cycle(tally)]
#[derive(Drop)]
struct Steps<D: Disk> {
    link: Option<Link<D>>,
}

impl<D: Disk> Model for Steps<D> {
    ghost use Rattle.spool_pool.specs.Events.{TallyView};

    ghost Value = { TallyView };

    ghost use Rattle.spool_pool.specs.Tally.{tally_of};

    ghost view = { λ s. tally_of s.link };

    ghost size = { λ s. s.steps };
}

/// The steps so far. It has no bytes, so it may cross threads.
#[derive(Drop)]
pub(crate) struct Tally<D: Disk> {
    last: Snapshot<Steps<D>>,
}

impl<D: Disk> Model for Tally<D> {
    ghost use Rattle.spool_pool.specs.Events.{TallyView};

    ghost Value = { TallyView };

    ghost view = { λ t. t.last.value };
}

impl<D: Disk> Tally<D> {
    pub(crate) fn none() -> Tally<D>
        ensures { result ≡ record { events = []; out = []; steps = 0 } }
    {
        let steps = Steps { link: None };
        Tally {
            last: Snapshot::of(&steps),
        }
    }

    fn after(&self, step: Step<D>, other: &Tally<D>) -> Tally<D>
        ensures { result ≡ after step self.now other.now }
    {
        let link = Link {
            before: Snapshot::of(&self.last),
            other: Snapshot::of(&other.last),
            step,
        };
        let steps = Steps { link: Some(link) };
        Tally {
            last: Snapshot::of(&steps),
        }
    }

    pub(crate) fn took_free(&self, slot: &Free<D>) -> Tally<D>
        ensures { result ≡ lent (record { number = slot.now.number; was_full = false; taken = None }) self.now }
    {
        self.after(Step::TookFree(Snapshot::of(slot)), &Tally::none())
    }

    pub(crate) fn took_full(&self, slot: &Full<D>) -> Tally<D>
        ensures { result ≡ lent (record { number = slot.now.number; was_full = true; taken = Some slot.now }) self.now }
    {
        self.after(Step::TookFull(Snapshot::of(slot)), &Tally::none())
    }

    pub(crate) fn put_free(&self, slot: &Free<D>) -> Tally<D>
        ensures { result ≡ given slot.now.number (freed_by (loan_of slot.now.number self.now.out)) self.now }
    {
        self.after(Step::PutFree(Snapshot::of(slot)), &Tally::none())
    }

    pub(crate) fn put_full(&self, slot: &Full<D>) -> Tally<D>
        ensures { result ≡ given slot.now.number (filled_by slot.now (loan_of slot.now.number self.now.out)) self.now }
    {
        self.after(Step::PutFull(Snapshot::of(slot)), &Tally::none())
    }

    pub(crate) fn put_aside(&self, slot: &Aside<D>) -> Tally<D>
        ensures { result ≡ given slot.now.number (shelved_by slot.now (loan_of slot.now.number self.now.out)) self.now }
    {
        self.after(Step::PutAside(Snapshot::of(slot)), &Tally::none())
    }

    pub(crate) fn put_broken(&self, slot: &Broken<D>) -> Tally<D>
        ensures { result ≡ given slot.now.number (broken_by slot.now (loan_of slot.now.number self.now.out)) self.now }
    {
        self.after(Step::PutBroken(Snapshot::of(slot)), &Tally::none())
    }

    pub(crate) fn met(&self, other: &Tally<D>) -> Tally<D>
        ensures { result ≡ joined self.now other.now }
    {
        self.after(Step::Met, other)
    }
}
