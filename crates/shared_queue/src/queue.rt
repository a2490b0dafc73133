ghost use Rattle.std.specs.Prelude.{◌≡◌, ◌<◌, ◌≤◌, ◌^◌, List, [], length, IfOk, IfNone, MatchOption};
ghost use Rattle.shared_queue.specs.Moves.{HasAll, StandIn, begun_with, less_one, met, missed, put_more, split_off, taken_out};

use crate::pass::QueuePass;
use crate::rule::{Cut, Meeting, Takes};
use crate::steps::{Ring, begin_in, put_in};
use crossbeam_queue::RuledArrayQueue;
use fw_types::NoMemory;
use std::alloc::Global;
use std::marker::Model;
use std::sync::Wait;

/// A queue that threads share. Contracts see it as which queue it is, and for how many items it has room.
#[derive(Drop)]
pub struct SharedQueue<T: Drop> {
    ring: Ring<T>,
}

impl<T: Drop> Model for SharedQueue<T> {
    ghost use Rattle.crossbeam_queue.specs.Passes.{ruled_capacity};
    ghost use Rattle.shared_queue.specs.Moves.{QueueView};
    ghost use Rattle.shared_queue.specs.Rest.{home_of};

    ghost Value = { QueueView };

    ghost view = { λ queue. record {
      home = home_of queue.ring.table.shared.table_id;
      room = ruled_capacity queue.ring;
    } };
}

impl<T: Drop> SharedQueue<T> {
    /// An empty queue with room for so many, and the pass with all parts.
    pub fn new(alloc: Global, room: usize) -> Result<(SharedQueue<T>, QueuePass<T>), NoMemory>
        requires { 0 < room }
        ensures room { IfOk result (λ made. made.0.room ≡ room) }
        ensures pass { IfOk result (λ made. made.1 ≡ record {
          home = made.0.home;
          parts = 2 ^ 64;
          began = [];
          put = [];
          taken = [];
          misses = 0;
        }) }
    {
        match RuledArrayQueue::ruled(alloc, room) {
            Ok((ring, pass)) => Ok((SharedQueue { ring }, QueuePass { pass, misses: 0 })),
            Err(_) => Err(NoMemory),
        }
    }

    /// Puts an item that the queue begins with.
    pub fn begin<R: Wait>(&self, rt: &R, pass: &mut QueuePass<T>, item: T)
        requires home { pass.old.home ≡ self.now.home }
        requires all { HasAll pass.old }
        ensures { pass.new ≡ begun_with item pass.old }
    {
        begin_in(rt, &self.ring, &mut pass.pass, item);
    }

    /// Puts an item at the back. While the queue is full, it tries again.
    pub fn put<R: Wait>(&self, rt: &R, pass: &mut QueuePass<T>, item: T)
        requires home { pass.old.home ≡ self.now.home }
        requires part { 0 < pass.old.parts }
        ensures { pass.new ≡ put_more item pass.old }
    {
        put_in(rt, &self.ring, &mut pass.pass, item);
    }

    /// Takes the item at the front. A pass with all parts gets none only if all that the queue began with, and all that was put, was taken.
    pub fn take<R: Wait>(&self, rt: &R, pass: &mut QueuePass<T>) -> Option<T>
        requires home { pass.old.home ≡ self.now.home }
        requires part { 0 < pass.old.parts }
        ensures taken { MatchOption result (pass.new ≡ pass.old) (λ item. pass.new ≡ taken_out item pass.old) }
        ensures none { IfNone result (HasAll pass.old → StandIn pass.old []) }
    {
        self.ring.pop_as::<Takes, R>(rt, &mut pass.pass)
    }

    /// As `take`; where none comes out the pass's count is one more, up to 2^64 - 1.
    pub fn take_counted<R: Wait>(&self, rt: &R, pass: &mut QueuePass<T>) -> Option<T>
        requires home { pass.old.home ≡ self.now.home }
        requires part { 0 < pass.old.parts }
        ensures taken { MatchOption result (pass.new ≡ missed pass.old) (λ item. pass.new ≡ taken_out item pass.old) }
        ensures count { pass.old.misses ≤ pass.new.misses }
        ensures none { IfNone result (HasAll pass.old → StandIn pass.old []) }
    {
        match self.take(rt, pass) {
            Some(item) => Some(item),
            None => {
                pass.misses = pass.misses.saturating_add(1);
                None
            }
        }
    }

    /// Gives one part away, to a new pass.
    #[tactic(auto, using(crate::proofs::Keeps::splits))]
    pub fn split(&self, pass: &mut QueuePass<T>) -> QueuePass<T>
        requires home { pass.old.home ≡ self.now.home }
        requires parts { 1 < pass.old.parts }
        ensures old { pass.new ≡ less_one pass.old }
        ensures new { result ≡ split_off pass.old }
    {
        let other = self.ring.another::<Cut>(&mut pass.pass);
        QueuePass {
            pass: other,
            misses: 0,
        }
    }

    /// The pass takes in what another knows.
    #[tactic(auto, using(crate::proofs::Keeps::meets))]
    pub fn meet(&self, pass: &mut QueuePass<T>, other: QueuePass<T>)
        requires home { pass.old.home ≡ self.now.home }
        requires other { other.home ≡ self.now.home }
        requires part { 0 < pass.old.parts }
        ensures { pass.new ≡ met pass.old other }
    {
        let (seat, misses) = other.into_parts();
        self.ring.absorb::<Meeting>(&mut pass.pass, seat);
        pass.misses = pass.misses.saturating_add(misses);
    }

    /// What the pass knows of the items that stand in the queue, if it has all parts: no more than there is room for.
    pub fn look<R: Wait>(&self, rt: &R, pass: &mut QueuePass<T>)
        requires home { pass.old.home ≡ self.now.home }
        ensures same { pass.new ≡ pass.old }
        ensures stand { HasAll pass.old → (items : List T) × (length items ≤ self.now.room) × StandIn pass.old items }
    {
        self.ring.len_as::<Takes, R>(rt, &mut pass.pass);
    }
}
