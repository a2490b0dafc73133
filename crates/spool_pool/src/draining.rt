//! Emptying a queue of the pool.
ghost use Rattle.std.specs.Prelude.{◌≡◌, ◌+◌, ◌<◌, ◌≤◌, List, length};
ghost use Rattle.spool_rack.specs.Store.{Queues, with_free, with_full};
ghost use Rattle.spool_rack.specs.Stock.{count_of};
ghost use Rattle.shared_queue.specs.Moves.{HasAll, StandIn};
ghost use Rattle.spool_pool.specs.Closing.{Drains, with_shelved};

use crate::letter::Letter;
use crate::shelved::{Kind, Shelved};
use fw_disk::Disk;
use shared_queue::{QueuePass, SharedQueue};
use spool_rack::{Free, Stock};
use std::sync::Wait;

/// A slot that goes into a stock.
pub(crate) trait Homing<D: Disk>: Drop {
    ghost homed: { Self → Queues → Queues };

    fn go_home(self, stock: &mut Stock<D>)
        requires { count_of stock.old.queues < stock.old.room }
        ensures home { stock.new ≡ record { queues = homed self stock.old.queues; room = stock.old.room } }
        ensures counted { count_of stock.new.queues ≡ count_of stock.old.queues + 1 };
}

impl<T: Disk> Homing<T> for Free<T> {
    ghost homed = { with_free };

    #[tactic(auto, using(crate::proofs::Counts::one_free))]
    fn go_home(self, stock: &mut Stock<T>) {
        stock.add_free(self);
    }
}

impl<T: Disk> Homing<T> for Letter<T> {
    ghost homed = { with_full };

    #[tactic(auto, using(crate::proofs::Counts::one_full))]
    fn go_home(self, stock: &mut Stock<T>) {
        stock.add_full(self.into_slot());
    }
}

impl<T: Disk> Homing<T> for Shelved<T> {
    ghost homed = { with_shelved };

    #[tactic(auto, using(crate::proofs::Counts::one_shelved))]
    fn go_home(self, stock: &mut Stock<T>) {
        match self.into_kind() {
            Kind::Aside(slot) => stock.add_aside(slot),
            Kind::Broken(slot) => stock.add_broken(slot),
        }
    }
}

// Takes from a queue, of whose items no more stand there than there is room for, until it is empty or so many were taken.
#[tactic(auto, using(crate::proofs::Drains::drain_first, crate::proofs::Drains::drain_space))]
fn drain_known<D: Disk, T: Homing<D>, R: Wait>(
    rt: &R,
    queue: &SharedQueue<T>,
    pass: &mut QueuePass<T>,
    room: usize,
    stock: &mut Stock<D>,
)
    requires home { pass.old.home ≡ queue.now.home }
    requires part { 0 < pass.old.parts }
    requires room { queue.now.room ≡ room }
    requires space { count_of stock.old.queues + room ≤ stock.old.room }
    requires stand { HasAll pass.old → (items : List T) × (length items ≤ room) × StandIn pass.old items }
    ensures drains { Drains T.homed room pass.old stock.old stock.new }
    ensures misses { pass.new.misses ≡ pass.old.misses }
{
    let mut left = room;
    while left > 0 {
        match queue.take(rt, pass) {
            Some(slot) => slot.go_home(stock),
            None => return,
        }
        left -= 1;
    }
    queue.look(rt, pass);
}

/// Takes what stands in a queue, at most as many as there is room for, and puts it into the stock.
pub(crate) fn drain<D: Disk, T: Homing<D>, R: Wait>(
    rt: &R,
    queue: &SharedQueue<T>,
    pass: &mut QueuePass<T>,
    room: usize,
    stock: &mut Stock<D>,
)
    requires home { pass.old.home ≡ queue.now.home }
    requires part { 0 < pass.old.parts }
    requires room { queue.now.room ≡ room }
    requires space { count_of stock.old.queues + room ≤ stock.old.room }
    ensures drains { Drains T.homed room pass.old stock.old stock.new }
    ensures misses { pass.new.misses ≡ pass.old.misses }
{
    queue.look(rt, pass);
    drain_known(rt, queue, pass, room, stock);
}
