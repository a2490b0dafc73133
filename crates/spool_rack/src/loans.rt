//! The slots that are out.
ghost use Rattle.std.specs.Prelude.{◌≡◌, ◌==◌, ◌+◌, ◌<◌, [], ◌∷◌, length, map, None, IfOk};
ghost use Rattle.std.specs.List.{position, remove};
ghost use Rattle.std.specs.VecDeque.{deque_len, deque_capacity};
ghost use Rattle.spool_rack.specs.Store.{IsOut, struck};
ghost use Rattle.spool_rack.specs.Room.{loan_view};

use std::alloc::{AllocError, Global};
use std::collections::VecDeque;
use std::marker::Model;

/// A slot that was taken, full or not.
#[derive(Clone, Copy, Drop)]
pub(crate) struct Lent {
    pub(crate) number: u32,
    pub(crate) was_full: bool,
}

/// The slots that were taken and not put back, the latest first.
#[derive(Drop)]
pub(crate) struct Loans {
    lent: VecDeque<Lent>,
    room: usize,
}

impl Model for Loans {
    ghost use Rattle.std.specs.Prelude.{◌≡◌, ◌≤◌, length, map};
    ghost use Rattle.std.specs.VecDeque.{deque_len, deque_capacity};
    ghost use Rattle.spool_rack.specs.Store.{Loan};
    ghost use Rattle.spool_rack.specs.Room.{QueueView, loan_view};

    ghost Value = { QueueView Loan };

    ghost view = { λ s. record { items = map loan_view s.lent.items; room = s.room } };

    ghost invariant = { λ s. (deque_len s.lent ≡ length s.lent.items) × (s.room ≤ deque_capacity s.lent) };
}

// Where the latest of a number stands.
fn find(lent: &VecDeque<Lent>, number: u32) -> Option<usize>
    ensures { result ≡ position (λ l. l.number == number) lent.now.items }
{
    lent.iter().position(|l| l.number == number)
}

// Where the latest of a number that is out stands.
#[tactic(auto, using(crate::proofs::LoanLemmas::struck_is, crate::proofs::LoanLemmas::out_stands, crate::proofs::LoanLemmas::place_within))]
fn find_out(lent: &VecDeque<Lent>, number: u32) -> usize
    requires { IsOut number (map loan_view lent.now.items) }
    ensures struck { map loan_view (remove lent.now.items result) ≡ struck number (map loan_view lent.now.items) }
    ensures within { result < length lent.now.items }
{
    match find(lent, number) {
        Some(at) => at,
        None => unreachable!(),
    }
}

fn remove_at(lent: &mut VecDeque<Lent>, at: usize)
    requires { at < deque_len lent.old }
    ensures items { lent.new.items ≡ remove lent.old.items at }
    ensures len { deque_len lent.new + 1 ≡ deque_len lent.old }
    ensures capacity { deque_capacity lent.new ≡ deque_capacity lent.old }
{
    match lent.remove(at) {
        Some(_) => {}
        None => unreachable!(),
    }
}

impl Loans {
    /// None, with room for so many.
    pub(crate) fn with_room(alloc: Global, room: usize) -> Result<Loans, AllocError>
        ensures { IfOk result (λ loans. loans ≡ record { items = []; room = room }) }
    {
        let lent = VecDeque::with_capacity(alloc, room)?;
        Ok(Loans { lent, room })
    }

    /// A slot is taken.
    #[tactic(auto, using(crate::proofs::LoanLemmas::length_lent))]
    pub(crate) fn lend(&mut self, number: u32, was_full: bool)
        requires { length self.old.items < self.old.room }
        ensures { self.new ≡ record {
          items = record { number = number; was_full = was_full; taken = None } ∷ self.old.items;
          room = self.old.room;
        } }
    {
        self.lent.push_front_reserved(Lent { number, was_full });
    }

    /// A slot is put back.
    #[tactic(auto, using(crate::proofs::LoanLemmas::length_lent))]
    pub(crate) fn strike(&mut self, number: u32)
        requires { IsOut number self.old.items }
        ensures is { self.new ≡ record { items = struck number self.old.items; room = self.old.room } }
        ensures shorter { length self.new.items + 1 ≡ length self.old.items }
    {
        let at = find_out(&self.lent, number);
        remove_at(&mut self.lent, at);
    }
}
