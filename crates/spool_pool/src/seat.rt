ghost use Rattle.std.specs.Prelude.{◌≡◌, ◌^◌, [], option_map, IfNone, MatchOption, refl};
ghost use Rattle.spool_rack.specs.Store.{IsOut, MayPutAside, MayPutBroken, MayPutFull, PutsBroken};
ghost use Rattle.spool_rack.specs.Store.{TakesFree, TakesFull, put_aside, put_free, put_full};
ghost use Rattle.shared_queue.specs.Moves.{StandIn, missed, taken_out};
ghost use Rattle.spool_pool.specs.Known.{IsPassOf, store_of};

use crate::lanes::Lanes;
use crate::letter::Letter;
use crate::pass::PoolPass;
use crate::pool::Pool;
use crate::shelved::Shelved;
use crate::tally::Tally;
use fw_disk::Disk;
use spool_rack::{Aside, Broken, Free, Full, MailStore, SlotStore};
use std::marker::Model;
use std::sync::Wait;

/// A thread's seat at a pool: a store of slots. Contracts see it as its pass and the slots that are out.
#[derive(Drop)]
pub struct PoolSeat<'a, H, D: Disk> {
    rt: &'a H,
    pool: &'a Pool<D>,
    lanes: Lanes<D>,
    tally: Tally<D>,
    breaks: u64,
}

impl<'a, H, D: Disk> Model for PoolSeat<'a, H, D> {
    ghost use Rattle.std.specs.Prelude.{◌≡◌};
    ghost use Rattle.spool_pool.specs.Known.{SeatView};

    ghost Value = { SeatView };

    ghost use Rattle.spool_pool.specs.Account.{IsSound, homes_of, seat_of};

    ghost view = { λ s. seat_of s.lanes s.tally s.breaks };

    ghost invariant = { λ s. IsSound s.lanes s.tally × (homes_of s.lanes ≡ s.pool.now.home) };
}

impl<'a, H: Wait, D: Disk> PoolSeat<'a, H, D> {
    /// A seat at a pool, with a pass of it.
    #[tactic(auto, using(crate::proofs::Passes::opened, crate::proofs::Passes::same_pass))]
    pub fn new(rt: &'a H, pool: &'a Pool<D>, pass: PoolPass<D>) -> PoolSeat<'a, H, D>
        requires { IsPassOf pool.now pass }
        ensures pass { result.pass ≡ pass }
        ensures out { result.out ≡ [] }
    {
        let _ = &pool.room;
        let PoolPass {
            lanes,
            tally,
            breaks,
            is_closed: _,
        } = pass;
        PoolSeat {
            rt,
            pool,
            lanes,
            tally,
            breaks,
        }
    }

    /// The pass, once no slot is out.
    pub fn into_pass(self) -> PoolPass<D>
        requires { self.out ≡ [] }
        ensures { result ≡ self.entry.pass }
    {
        let PoolSeat {
            rt: _,
            pool: _,
            lanes,
            tally,
            breaks,
        } = self;
        PoolPass {
            lanes,
            tally,
            breaks,
            is_closed: false,
        }
    }
}

impl<'a, H: Wait, D: Disk> PoolSeat<'a, H, D> {
    /// A free slot. Where it gives none, a take of the queue of free slots gave none, and the count of such takes is one more, up to 2^64 - 1. A pass
    /// with all parts gets none only if each slot that the queue had was taken.
    #[tactic(auto, using(crate::proofs::Seats::after_take_free, crate::proofs::Seats::after_no_free, crate::proofs::Seats::none_free))]
    pub fn take_free(&mut self) -> Option<Free<D>>
        ensures takes { TakesFree result (store_of self.old) (store_of self.new) }
        ensures looked { MatchOption result (self.new.free ≡ missed self.old.free) (λ slot. self.new.free ≡ taken_out slot self.old.free) }
        ensures other { self.new.full ≡ self.old.full }
        ensures count { self.new.pass.no_free ≡ self.new.free.misses }
        ensures none { IfNone result (self.old.pass.handed.parts ≡ 2 ^ 64 → StandIn self.old.free []) }
    {
        let pool = self.pool;
        match pool.free.take_counted(self.rt, &mut self.lanes.free) {
            Some(slot) => {
                self.tally = self.tally.took_free(&slot);
                Some(slot)
            }
            None => None,
        }
    }

    /// A slot with a message. Where it gives none, a take of the queue of full slots gave none, and the count of such takes is one more, up to 2^64 - 1. A
    /// pass with all parts gets none only if each slot that the queue had was taken.
    #[tactic(auto, using(crate::proofs::Seats::after_take_full, crate::proofs::Seats::after_no_full))]
    pub fn take_full(&mut self) -> Option<Full<D>>
        ensures takes { TakesFull result (store_of self.old) (store_of self.new) }
        ensures looked { MatchOption result (self.new.full ≡ missed self.old.full) (λ slot. self.new.full ≡ taken_out slot self.old.full) }
        ensures other { self.new.free ≡ self.old.free }
        ensures count { self.new.pass.no_full ≡ self.new.full.misses }
        ensures none { IfNone result (self.old.pass.handed.parts ≡ 2 ^ 64 → StandIn self.old.full []) }
    {
        let pool = self.pool;
        match pool.full.take_counted(self.rt, &mut self.lanes.full) {
            Some(letter) => {
                let slot = letter.into_slot();
                self.tally = self.tally.took_full(&slot);
                Some(slot)
            }
            None => None,
        }
    }

    /// Puts back a slot that was taken, and is free.
    #[tactic(auto, using(crate::proofs::Seats::after_put_free))]
    pub fn put_free(&mut self, slot: Free<D>)
        requires { IsOut slot.number self.old.out }
        ensures { store_of self.new ≡ put_free slot (store_of self.old) }
    {
        let pool = self.pool;
        self.tally = self.tally.put_free(&slot);
        pool.free.put(self.rt, &mut self.lanes.free, slot);
    }

    /// Puts back a slot that was taken, and has a message.
    #[tactic(auto, using(crate::proofs::Seats::after_put_full))]
    pub fn put_full(&mut self, slot: Full<D>)
        requires { MayPutFull slot self.old.out }
        ensures { store_of self.new ≡ put_full slot (store_of self.old) }
    {
        let pool = self.pool;
        self.tally = self.tally.put_full(&slot);
        pool.full
            .put(self.rt, &mut self.lanes.full, Letter::of(slot));
    }

    /// Puts back a slot that was taken full, and whose message was set aside.
    #[tactic(auto, using(crate::proofs::Seats::after_put_aside))]
    pub fn put_aside(&mut self, slot: Aside<D>)
        requires { MayPutAside slot self.old.out }
        ensures { store_of self.new ≡ put_aside slot (store_of self.old) }
    {
        let pool = self.pool;
        self.tally = self.tally.put_aside(&slot);
        let slot = Shelved::aside(slot);
        pool.shelf.put(self.rt, &mut self.lanes.shelf, slot);
    }

    /// Puts back a slot that was taken, and whose disk failed.
    #[tactic(auto, using(crate::proofs::Seats::after_put_broken))]
    pub fn put_broken(&mut self, slot: Broken<D>)
        requires { MayPutBroken slot self.old.out }
        ensures { PutsBroken slot (store_of self.old) (store_of self.new) }
    {
        let pool = self.pool;
        self.tally = self.tally.put_broken(&slot);
        let slot = Shelved::broken(slot);
        pool.shelf.put(self.rt, &mut self.lanes.shelf, slot);
        self.breaks = self.breaks.saturating_add(1);
    }
}

impl<'a, H: Wait, D: Disk> SlotStore for PoolSeat<'a, H, D> {
    type Free = Free<D>;

    type Full = Full<D>;

    type Aside = Aside<D>;

    type Broken = Broken<D>;

    ghost store_view = { store_of };

    ghost free_view = { λ slot. slot };

    ghost full_view = { λ slot. slot };

    ghost aside_view = { λ slot. slot };

    ghost broken_view = { λ slot. slot };

    fn take_free(&mut self) -> Option<Free<D>>
        ensures takes { TakesFree (option_map (λ slot. slot) result) (store_of self.old) (store_of self.new) }
        ensures looked { MatchOption result (self.new.free ≡ missed self.old.free) (λ slot. self.new.free ≡ taken_out slot self.old.free) }
        ensures other { self.new.full ≡ self.old.full }
    {
        match PoolSeat::take_free(self) {
            Some(slot) => Some(slot),
            None => None,
        }
    }

    fn take_full(&mut self) -> Option<Full<D>>
        ensures takes { TakesFull (option_map (λ slot. slot) result) (store_of self.old) (store_of self.new) }
        ensures looked { MatchOption result (self.new.full ≡ missed self.old.full) (λ slot. self.new.full ≡ taken_out slot self.old.full) }
        ensures other { self.new.free ≡ self.old.free }
    {
        match PoolSeat::take_full(self) {
            Some(slot) => Some(slot),
            None => None,
        }
    }

    fn put_free(&mut self, slot: Free<D>) {
        PoolSeat::put_free(self, slot);
    }

    fn put_full(&mut self, slot: Full<D>) {
        PoolSeat::put_full(self, slot);
    }

    fn put_aside(&mut self, slot: Aside<D>) {
        PoolSeat::put_aside(self, slot);
    }

    fn put_broken(&mut self, slot: Broken<D>) {
        PoolSeat::put_broken(self, slot);
    }
}

impl<'a, H: Wait, T: Disk> MailStore for PoolSeat<'a, H, T> {
    type D = T;

    ghost sees_free = { λ slot. refl };

    ghost sees_full = { λ slot. refl };

    ghost sees_aside = { λ slot. refl };

    ghost sees_broken = { λ slot. refl };
}
