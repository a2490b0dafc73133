//! A queue with room.
ghost use Rattle.std.specs.Prelude.{◌≡◌, ◌+◌, ◌<◌, ◌++◌, [], ◌∷◌, length, take, drop, IfOk, MatchOption};

use std::alloc::{AllocError, Global};
use std::collections::VecDeque;
use std::marker::Model;

/// A queue with room for so many.
#[derive(Drop)]
pub(crate) struct Queue<T: Drop> {
    items: VecDeque<T>,
    room: usize,
}

impl<T: Drop> Model for Queue<T> {
    ghost use Rattle.std.specs.Prelude.{◌≡◌, ◌≤◌, length};
    ghost use Rattle.std.specs.VecDeque.{deque_len, deque_capacity};
    ghost use Rattle.spool_rack.specs.Room.{QueueView};

    ghost Value = { QueueView T };

    ghost view = { λ q. record { items = q.items.items; room = q.room } };

    ghost invariant = { λ q. (deque_len q.items ≡ length q.items.items) × (q.room ≤ deque_capacity q.items) };
}

impl<T: Drop> Queue<T> {
    /// An empty queue, for which memory is taken.
    pub(crate) fn with_room(alloc: Global, room: usize) -> Result<Queue<T>, AllocError>
        ensures { IfOk result (λ queue. queue ≡ record { items = []; room = room }) }
    {
        let items = VecDeque::with_capacity(alloc, room)?;
        Ok(Queue { items, room })
    }

    /// Puts a member at the back.
    pub(crate) fn push(&mut self, item: T)
        requires { length self.old.items < self.old.room }
        ensures { self.new ≡ record { items = self.old.items ++ item ∷ []; room = self.old.room } }
    {
        self.items.push_back_reserved(item);
    }

    /// Takes the member at the front.
    pub(crate) fn pop(&mut self) -> Option<T>
        ensures front { MatchOption result (self.old.items ≡ []) (λ item. take 1 self.old.items ≡ item ∷ []) }
        ensures rest { self.new ≡ record { items = drop 1 self.old.items; room = self.old.room } }
    {
        self.items.pop_front()
    }

    /// A queue of these, with room for as many.
    pub(crate) fn of(items: Vec<T>) -> Queue<T>
        ensures { result ≡ record { items = items.items; room = length items.items } }
    {
        let room = items.len();
        Queue {
            items: VecDeque::from_vec(items),
            room,
        }
    }

    /// How many stand in it.
    pub(crate) fn len(&self) -> usize
        ensures { result ≡ length self.now.items }
    {
        self.items.len()
    }

    /// Puts a member at the front.
    pub(crate) fn push_front(&mut self, item: T)
        requires { length self.old.items < self.old.room }
        ensures { self.new ≡ record { items = item ∷ self.old.items; room = self.old.room } }
    {
        self.items.push_front_reserved(item);
    }

    /// Takes the member at the back.
    pub(crate) fn pop_back(&mut self) -> Option<T>
        ensures back { MatchOption result (self.old.items ≡ []) (λ item. self.old.items ≡ self.new.items ++ item ∷ []) }
        ensures room { self.new.room ≡ self.old.room }
    {
        self.items.pop_back()
    }

    /// Its members.
    pub(crate) fn into_vec(self) -> Vec<T>
        ensures { result.items ≡ self.items }
    {
        let Queue { items, room: _ } = self;
        items.into_vec()
    }
}
