//! Room for the slots of a rack.
ghost use Rattle.std.specs.Prelude.{◌≡◌, ◌<◌, false, IfOk};
ghost use Rattle.spool_rack.specs.Store.{with_aside, with_broken, with_free, with_full};
ghost use Rattle.spool_rack.specs.Stock.{StockView, count_of, no_slots, rack_of};

use crate::bare::{Bare, make_room};
use crate::closing::Held;
use crate::loans::Loans;
use crate::queue::Queue;
use crate::rack::Rack;
use crate::shelving::Shelves;
use fw_disk::Disk;
use fw_types::NoMemory;
use spool_slots::{Aside, Broken, Free, Full};
use std::alloc::Global;
use std::marker::Model;

/// Slots, with room for so many, that become a rack.
#[derive(Drop)]
pub struct Stock<D: Disk> {
    free: Queue<Free<D>>,
    full: Queue<Full<D>>,
    aside: Queue<Aside<D>>,
    broken: Queue<Broken<D>>,
    out: Loans,
    held: Queue<Held<D>>,
    home: Queue<D>,
    room: usize,
}

impl<D: Disk> Model for Stock<D> {
    ghost use Rattle.std.specs.Prelude.{◌≡◌, []};
    ghost use Rattle.spool_rack.specs.Room.{HasRoom, IsSpare};
    ghost use Rattle.spool_rack.specs.Stock.{StockView};

    ghost Value = { StockView };

    ghost view = { λ s. record {
      queues = record { free = s.free.items; full = s.full.items; aside = s.aside.items; broken = s.broken.items };
      room = s.room;
    } };

    ghost invariant = { λ s. (HasRoom s.free s.full s.aside s.broken s.out s.room) × IsSpare s.held s.home s.room × (s.out.items ≡ []) };
}

impl<D: Disk> Stock<D> {
    /// No slots, and room for so many.
    #[tactic(auto, using(crate::proofs::StockLemmas::bare_room))]
    pub fn with_room(alloc: Global, room: usize) -> Result<Stock<D>, NoMemory>
        ensures { IfOk result (λ stock. stock ≡ record { queues = no_slots; room = room }) }
    {
        let Bare {
            shelves,
            broken,
            out,
            found: _,
            held,
            home,
        } = make_room(alloc, room)?;
        let Shelves { free, full, aside } = shelves;
        Ok(Stock {
            free,
            full,
            aside,
            broken,
            out,
            held,
            home,
            room,
        })
    }

    /// For how many slots there is room.
    pub fn room(&self) -> usize
        ensures { result ≡ self.now.room }
    {
        self.room
    }

    /// A free slot more, at the back.
    pub fn add_free(&mut self, slot: Free<D>)
        requires { count_of self.old.queues < self.old.room }
        ensures { self.new ≡ record { queues = with_free slot self.old.queues; room = self.old.room } }
    {
        self.free.push(slot);
    }

    /// A full slot more, at the back.
    #[tactic(auto, using(crate::proofs::RackLemmas::more_read))]
    pub fn add_full(&mut self, slot: Full<D>)
        requires room { count_of self.old.queues < self.old.room }
        requires read { slot.unread ≡ false }
        ensures { self.new ≡ record { queues = with_full slot self.old.queues; room = self.old.room } }
    {
        self.full.push(slot);
    }

    /// One more that was set aside, at the back.
    pub fn add_aside(&mut self, slot: Aside<D>)
        requires { count_of self.old.queues < self.old.room }
        ensures { self.new ≡ record { queues = with_aside slot self.old.queues; room = self.old.room } }
    {
        self.aside.push(slot);
    }

    /// A broken slot more, at the back.
    pub fn add_broken(&mut self, slot: Broken<D>)
        requires { count_of self.old.queues < self.old.room }
        ensures { self.new ≡ record { queues = with_broken slot self.old.queues; room = self.old.room } }
    {
        self.broken.push(slot);
    }

    /// A rack of these slots.
    pub fn into_rack(self) -> Rack<D>
        ensures { result ≡ rack_of self.queues }
    {
        let Stock {
            free,
            full,
            aside,
            broken,
            out,
            held,
            home,
            room,
        } = self;
        Rack {
            free,
            full,
            aside,
            broken,
            out,
            held,
            home,
            no_free: 0,
            no_full: 0,
            breaks: 0,
            room,
        }
    }
}
