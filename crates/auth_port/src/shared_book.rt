//! A book that threads share, as the port of one of them.
ghost use Rattle.std.specs.Prelude.{◌≡◌, [], false};
ghost use mathlib.Core.List.{IsPrefix};
ghost use Rattle.auth_events.specs.Port.{Asks};
ghost use Rattle.auth_machine.specs.History.{IsLegal};
ghost use Rattle.auth_machine.specs.Port.{full_at};
ghost use Rattle.auth_port.specs.Shared.{AnswersInOne, SeesLegal, pass_of, shared_port};
ghost use Rattle.fw_outside.specs.Counts.{Grew};
ghost use Rattle.turn_lock.specs.Known.{IsPassOf};

use crate::asking::{Answered, Asking};
use crate::shared_origin::SharedOrigin;
use auth_events::{AuthPort, Denial, PortFault, Reply, Request};
use auth_machine::Book;
use fw_outside::Keeper;
use std::alloc::Global;
use std::marker::Model;
use std::snapshot::Snapshot;
use std::sync::Wait;
use turn_lock::{Pass, Turns};

/// A pass of a lock over a book, as a port: each request waits for the turn. Contracts see it as that port.
#[derive(Drop)]
pub struct SharedBook<'a, H, K: Keeper> {
    rt: &'a H,
    turns: &'a Turns<Book<K>>,
    pass: Pass<Book<K>>,
    at_first: Snapshot<Pass<Book<K>>>,
    mine: Vec<u64>,
    refused: bool,
    asks: u64,
}

impl<'a, H, K: Keeper> Model for SharedBook<'a, H, K> {
    ghost use Rattle.auth_events.specs.Port.{Port};
    ghost use Rattle.auth_port.specs.Shared.{GoesOn, SharedOrigin, shared_port};

    ghost Value = { Port SharedOrigin };

    ghost view = { λ s. shared_port (record { lock = s.turns.now; first = s.at_first.value }) s.pass.seen s.mine.items
        s.refused s.asks };

    ghost invariant = { λ s. GoesOn (record { lock = s.turns.now; first = s.at_first.value }) s.mine.items s.pass };
}

// The count after one more.
fn one_more(count: u64) -> u64
    ensures { Grew 1 count result }
{
    count.saturating_add(1)
}

impl<'a, H, K: Keeper> SharedBook<'a, H, K> {
    /// The port of this pass. It has seen what the pass has, and has made no entry yet.
    pub fn new(
        rt: &'a H,
        alloc: Global,
        turns: &'a Turns<Book<K>>,
        pass: Pass<Book<K>>,
    ) -> SharedBook<'a, H, K>
        requires pass { IsPassOf turns.now pass }
        ensures is { result ≡ shared_port (record { lock = turns.now; first = pass }) pass.seen [] false 0 }
    {
        let at_first = Snapshot::of(&pass);
        SharedBook {
            rt,
            turns,
            pass,
            at_first,
            mine: Vec::new(alloc),
            refused: false,
            asks: 0,
        }
    }

    /// The pass, and the places of the entries that this port made, in order. All that it has seen is legal, if what the pass
    /// had seen at first was; and it was full exactly where it had seen as many entries as fit. No link to it failed, and it
    /// answered nothing that doesn't fit.
    pub fn into_pass(self) -> (Pass<Book<K>>, Vec<u64>)
        ensures pass { result.0 ≡ pass_of self.entry }
        ensures given { IsPassOf self.entry.origin.lock result.0 }
        ensures begins { IsPrefix self.entry.origin.first.seen self.entry.seen }
        ensures places { result.1.items ≡ self.entry.mine }
        ensures legal { IsLegal self.entry.origin.lock.origin.origin self.entry.origin.first.seen → SeesLegal self.entry }
        ensures full { self.entry.full ≡ full_at self.entry.origin.lock.limit self.entry.seen }
        ensures calm { (self.entry.faults ≡ 0) × (self.entry.odd ≡ 0) }
    {
        let SharedBook { pass, mine, .. } = self;
        (pass, mine)
    }
}

impl<'a, H: Wait, K: Keeper> AuthPort for SharedBook<'a, H, K> {
    type Origin = SharedOrigin;

    ghost port = { λ s. s };

    fn ask(&mut self, sid: u64, at: u64, request: Request) -> Result<Reply, PortFault>
        ensures asks { Asks result sid at request self.old self.new }
        ensures begins { IsPrefix self.old.seen self.new.seen }
        ensures one_history { AnswersInOne result sid at request self.old self.new }
        ensures stays { self.new.origin ≡ self.old.origin }
    {
        self.asks = one_more(self.asks);
        if self.mine.reserve(1).is_err() {
            return Err(PortFault::NoMemory);
        }
        match self
            .turns
            .with_turn(self.rt, &mut self.pass, Asking { sid, at, request })
        {
            Answered::Entered { place, reply } => {
                self.mine.push_reserved(place);
                Ok(reply)
            }
            Answered::Full { limit } => {
                self.refused = true;
                Ok(Reply::Denied(Denial::Full { limit }))
            }
            Answered::NoMemory => Err(PortFault::NoMemory),
        }
    }
}
