//! The slots of a rack, one by one.
ghost use Rattle.std.specs.Prelude.{◌≡◌, ◌≤◌, ◌∷◌, [], false, Some, IfSome, MatchOption};
ghost use Rattle.spool_rack.specs.Stock.{count_of};

use crate::queue::Queue;
use crate::rack::Rack;
use fw_disk::Disk;
use spool_slots::{Aside, Broken, Free, Full};
use std::marker::Model;

/// The slots that stood in a rack. Contracts see them as its queues.
#[derive(Drop)]
pub struct RackSlots<D: Disk> {
    free: Queue<Free<D>>,
    full: Queue<Full<D>>,
    aside: Queue<Aside<D>>,
    broken: Queue<Broken<D>>,
}

impl<D: Disk> Model for RackSlots<D> {
    ghost use Rattle.std.specs.Prelude.{◌≡◌, false};
    ghost use Rattle.std.specs.List.{AllByRecursion};
    ghost use Rattle.spool_rack.specs.Store.{Queues};

    ghost Value = { Queues };

    ghost view = { λ s. record {
      free = s.free.items;
      full = s.full.items;
      aside = s.aside.items;
      broken = s.broken.items;
    } };

    ghost invariant = { λ s. AllByRecursion (λ slot. slot.unread ≡ false) s.full.items };
}

impl<D: Disk> Rack<D> {
    /// For how many slots it has room, those that are out among them.
    #[tactic(auto, using(crate::proofs::StockLemmas::count_within))]
    pub fn room(&self) -> usize
        ensures { IfSome self.now.queues (λ q. count_of q ≤ result) }
    {
        self.room
    }

    /// The slots that stand in it.
    pub fn into_slots(self) -> RackSlots<D>
        ensures { self.queues ≡ Some result }
    {
        let Rack {
            free,
            full,
            aside,
            broken,
            out: _,
            held: _,
            home: _,
            no_free: _,
            no_full: _,
            breaks: _,
            room: _,
        } = self;
        RackSlots {
            free,
            full,
            aside,
            broken,
        }
    }
}

impl<D: Disk> RackSlots<D> {
    /// The free slot at the front, if there is one.
    #[tactic(auto, using(crate::proofs::StockLemmas::front_of))]
    pub fn next_free(&mut self) -> Option<Free<D>>
        ensures front { MatchOption result (self.old.free ≡ []) (λ slot. self.old.free ≡ slot ∷ self.new.free) }
        ensures rest { self.new ≡ record self.old { free = self.new.free } }
    {
        self.free.pop()
    }

    /// The slot with a message at the front, if there is one.
    #[tactic(auto, using(crate::proofs::RackLemmas::first_read, crate::proofs::RackLemmas::rest_read, crate::proofs::StockLemmas::front_of))]
    pub fn next_full(&mut self) -> Option<Full<D>>
        ensures front { MatchOption result (self.old.full ≡ []) (λ slot. self.old.full ≡ slot ∷ self.new.full) }
        ensures read { IfSome result (λ slot. slot.unread ≡ false) }
        ensures rest { self.new ≡ record self.old { full = self.new.full } }
    {
        self.full.pop()
    }

    /// The slot set aside at the front, if there is one.
    #[tactic(auto, using(crate::proofs::StockLemmas::front_of))]
    pub fn next_aside(&mut self) -> Option<Aside<D>>
        ensures front { MatchOption result (self.old.aside ≡ []) (λ slot. self.old.aside ≡ slot ∷ self.new.aside) }
        ensures rest { self.new ≡ record self.old { aside = self.new.aside } }
    {
        self.aside.pop()
    }

    /// The broken slot at the front, if there is one.
    #[tactic(auto, using(crate::proofs::StockLemmas::front_of))]
    pub fn next_broken(&mut self) -> Option<Broken<D>>
        ensures front { MatchOption result (self.old.broken ≡ []) (λ slot. self.old.broken ≡ slot ∷ self.new.broken) }
        ensures rest { self.new ≡ record self.old { broken = self.new.broken } }
    {
        self.broken.pop()
    }
}
