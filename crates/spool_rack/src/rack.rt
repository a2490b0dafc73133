//! The store of one thread.
ghost use Rattle.std.specs.Prelude.{◌≡◌, ◌≤◌, [], length, map, IfOk, IfErr, IfSome};
ghost use Rattle.spool_rack.specs.Opening.{AreInOrder, CameBack, IsRackFault, IsRackOf, queues_of, store_of};
ghost use Rattle.spool_rack.specs.Shelving.{AreReadable, IsBare};
ghost use Rattle.spool_rack.specs.Room.{IsSpare};
ghost use Rattle.spool_rack.specs.Store.{IsOut, MayPutAside, MayPutBroken, MayPutFull, PutsBroken};
ghost use Rattle.spool_rack.specs.Store.{TakesFree, TakesFull, put_aside, put_free, put_full};

use crate::RackFault;
use crate::bare::{Bare, make_room};
use crate::closing::{Held, in_order, pour};
use crate::loans::Loans;
use crate::opening::open_all;
use crate::queue::Queue;
use crate::shelving::{Shelves, shelve};
use fw_disk::Disk;
use fw_types::NoMemory;
use spool_slots::{Aside, Broken, Free, Full, Opened, SlotWhy};
use std::alloc::Global;
use std::marker::Model;

/// The slots of one spool, for one thread.
#[derive(Drop)]
pub struct Rack<D: Disk> {
    pub(crate) free: Queue<Free<D>>,
    pub(crate) full: Queue<Full<D>>,
    pub(crate) aside: Queue<Aside<D>>,
    pub(crate) broken: Queue<Broken<D>>,
    pub(crate) out: Loans,
    pub(crate) held: Queue<Held<D>>,
    pub(crate) home: Queue<D>,
    pub(crate) no_free: u64,
    pub(crate) no_full: u64,
    pub(crate) breaks: u64,
    pub(crate) room: usize,
}

impl<D: Disk> Model for Rack<D> {
    ghost use Rattle.std.specs.Prelude.{Some, None};
    ghost use Rattle.spool_rack.specs.Store.{StoreView};
    ghost use Rattle.spool_rack.specs.Room.{HasRoom, IsSpare};

    ghost Value = { StoreView };

    ghost view = { λ s. record {
      queues = Some (record {
        free = s.free.items;
        full = s.full.items;
        aside = s.aside.items;
        broken = s.broken.items;
      });
      handed = None;
      out = s.out.items;
      no_free = s.no_free;
      no_full = s.no_full;
      broken = s.breaks;
    } };

    ghost invariant = { λ s. (HasRoom s.free s.full s.aside s.broken s.out s.room) × IsSpare s.held s.home s.room };
}

// A rack of the slots that were opened.
#[tactic(auto, using(crate::proofs::ShelfLemmas::bare_space, crate::proofs::ShelfLemmas::filled_room, crate::proofs::ShelfLemmas::filled_store))]
fn filled<D: Disk>(
    shelves: Shelves<D>,
    broken: Queue<Broken<D>>,
    out: Loans,
    found: Queue<Opened<D>>,
    held: Queue<Held<D>>,
    home: Queue<D>,
    room: usize,
) -> Rack<D>
    requires readable { AreReadable found.items }
    requires few { length found.items ≤ room }
    requires bare { IsBare room shelves broken out }
    requires spare { IsSpare held home room }
    ensures { result ≡ store_of (queues_of found.items).free (queues_of found.items).full (queues_of found.items).aside [] [] }
{
    let mut shelves = shelves;
    shelve(&mut shelves, found);
    let Shelves { free, full, aside } = shelves;
    Rack {
        free,
        full,
        aside,
        broken,
        out,
        held,
        home,
        no_free: 0,
        no_full: 0,
        breaks: 0,
        room,
    }
}

// A rack of the slots that stand on the disks.
#[tactic(auto, using(crate::proofs::OpeningLemmas::slots_count, crate::proofs::OpeningLemmas::slots_read, crate::proofs::OpeningLemmas::length_views))]
fn open_with<D: Disk>(alloc: Global, bare: Bare<D>, disks: Vec<D>) -> Result<Rack<D>, RackFault<D>>
    requires few { length disks.items ≤ 64 }
    requires queues { IsBare (length disks.items) bare.shelves bare.broken bare.out }
    requires found { bare.found ≡ record { items = []; room = length disks.items } }
    requires spare { IsSpare bare.held bare.home (length disks.items) }
    ensures ok { IfOk result (λ rack. IsRackOf D (map D.disk_view disks.items) rack) }
    ensures err { IfErr result (λ fault.
        CameBack D 0 fault.slot fault.why (map D.disk_view disks.items) (map D.disk_view fault.disks.items)) }
{
    let room = disks.len();
    let Bare {
        shelves,
        broken,
        out,
        found,
        held,
        home,
    } = bare;
    match open_all(alloc, disks, found) {
        Ok(found) => Ok(filled(shelves, broken, out, found, held, home, room)),
        Err(fault) => Err(fault),
    }
}

impl<D: Disk> Rack<D> {
    /// Opens the slots of at most 64 disks, each of which is numbered by its place, and puts each at the back of the
    /// queue for what it is read as.
    pub fn open(alloc: Global, disks: Vec<D>) -> Result<Rack<D>, RackFault<D>>
        requires { length disks.items ≤ 64 }
        ensures ok { IfOk result (λ rack. IsRackOf D (map D.disk_view disks.items) rack) }
        ensures err { IfErr result (λ fault.
            IsRackFault D (map D.disk_view disks.items) fault.slot fault.why (map D.disk_view fault.disks.items)) }
    {
        match make_room(alloc, disks.len()) {
            Ok(room) => match open_with(alloc, room, disks) {
                Ok(rack) => Ok(rack),
                Err(fault) => Err(fault),
            },
            Err(NoMemory) => Err(RackFault {
                disks,
                slot: 0,
                why: SlotWhy::NoMemory,
            }),
        }
    }

    /// The disks of all slots that stand in it, in order of their numbers.
    pub fn close(self) -> Vec<D>
        ensures { IfSome self.queues (λ q. AreInOrder q (map D.disk_view result.items)) }
    {
        let Rack {
            free,
            full,
            aside,
            broken,
            out: _,
            held,
            home,
            no_free: _,
            no_full: _,
            breaks: _,
            room: _,
        } = self;
        let mut held = held;
        pour(free, &mut held);
        pour(full, &mut held);
        pour(aside, &mut held);
        pour(broken, &mut held);
        in_order(held, home)
    }
}

impl<D: Disk> Rack<D> {
    /// The free slot at the front, if there is one.
    pub fn take_free(&mut self) -> Option<Free<D>>
        ensures { TakesFree result self.old self.new }
    {
        match self.free.pop() {
            Some(slot) => {
                self.out.lend(slot.number(), false);
                Some(slot)
            }
            None => {
                self.no_free = self.no_free.saturating_add(1);
                None
            }
        }
    }

    /// The slot with a message at the front, if there is one.
    #[tactic(auto, using(crate::proofs::RackLemmas::first_read, crate::proofs::RackLemmas::rest_read))]
    pub fn take_full(&mut self) -> Option<Full<D>>
        ensures { TakesFull result self.old self.new }
    {
        match self.full.pop() {
            Some(slot) => {
                self.out.lend(slot.number(), true);
                Some(slot)
            }
            None => {
                self.no_full = self.no_full.saturating_add(1);
                None
            }
        }
    }

    /// Puts back a slot that was taken, and is free.
    pub fn put_free(&mut self, slot: Free<D>)
        requires { IsOut slot.number self.old.out }
        ensures { self.new ≡ put_free slot self.old }
    {
        self.out.strike(slot.number());
        self.free.push(slot);
    }

    /// Puts back a slot that was taken, and has a message.
    #[tactic(auto, using(crate::proofs::RackLemmas::more_read))]
    pub fn put_full(&mut self, slot: Full<D>)
        requires { MayPutFull slot self.old.out }
        ensures { self.new ≡ put_full slot self.old }
    {
        self.out.strike(slot.number());
        self.full.push(slot);
    }

    /// Puts back a slot that was taken full, and whose message was set aside.
    #[tactic(auto, using(crate::proofs::RackLemmas::taken_out))]
    pub fn put_aside(&mut self, slot: Aside<D>)
        requires { MayPutAside slot self.old.out }
        ensures { self.new ≡ put_aside slot self.old }
    {
        self.out.strike(slot.number());
        self.aside.push(slot);
    }

    /// Puts back a slot that was taken, and whose disk failed.
    #[tactic(auto, using(crate::proofs::RackLemmas::taken_out))]
    pub fn put_broken(&mut self, slot: Broken<D>)
        requires { MayPutBroken slot self.old.out }
        ensures { PutsBroken slot self.old self.new }
    {
        self.out.strike(slot.number());
        self.broken.push(slot);
        self.breaks = self.breaks.saturating_add(1);
    }
}
