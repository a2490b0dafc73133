ghost use Rattle.std.specs.Prelude.{◌≡◌};
ghost use Rattle.auth_events.specs.Port.{Asks};
ghost use Rattle.auth_port.specs.Faulty.{AnswersAsTold, AsksBook, faulty_port};
ghost use Rattle.fw_memory.specs.CallsView.{comes_at};
ghost use Rattle.fw_outside.specs.Counts.{Grew, Rose, counted};

use auth_events::{AuthPort, PortFault, Reply, Request};
use auth_machine::{Book, BookOrigin};
use fw_memory::Calls;
use fw_outside::Keeper;
use fw_types::NoMemory;
use std::marker::Model;

/// A port over a book, whose link fails at the calls that it is told. None of its own parts takes memory.
#[derive(Drop)]
pub struct FaultyPort<K: Keeper> {
    book: Book<K>,
    fails: Calls,
    asks: u64,
    faults: u64,
}

impl<K: Keeper> Model for FaultyPort<K> {
    ghost use Rattle.auth_port.specs.Faulty.{FaultyView};

    ghost Value = { FaultyView };

    ghost view = { λ p. record { book = p.book; fails = p.fails; asks = p.asks; faults = p.faults } };
}

impl<K: Keeper> FaultyPort<K> {
    /// A port over this book. Its requests are numbered from 0, whatever the book was asked before; the link fails at
    /// those in `fails`.
    pub fn new(book: Book<K>, fails: Calls) -> FaultyPort<K>
        ensures { result ≡ record { book = book; fails = fails; asks = 0; faults = 0 } }
    {
        FaultyPort {
            book,
            fails,
            asks: 0,
            faults: 0,
        }
    }

    /// The book. Its history has what was answered, and nothing of the calls that failed.
    pub fn into_book(self) -> Book<K>
        ensures is { result ≡ self.book }
        ensures seen { result.history ≡ (faulty_port self).seen }
    {
        let FaultyPort { book, .. } = self;
        book
    }

    // One more call, at which the link is told to fail or not.
    fn is_failing(&mut self) -> bool
        ensures answer { result ≡ comes_at self.old.fails self.old.asks }
        ensures is { self.new ≡ record self.old { asks = counted self.old.asks } }
        ensures grew { Grew 1 self.old.asks self.new.asks }
    {
        let call = self.asks;
        self.asks = call.saturating_add(1);
        self.fails.contains(call)
    }

    fn count_fault(&mut self)
        ensures rose { Rose self.old.faults self.new.faults }
        ensures is { self.new ≡ record self.old { faults = counted self.old.faults } }
    {
        self.faults = self.faults.saturating_add(1);
    }

    // Asks the book.
    fn ask_book(&mut self, sid: u64, at: u64, request: Request) -> Result<Reply, NoMemory>
        ensures { AsksBook sid at request result self.old self.new }
    {
        Book::ask(&mut self.book, sid, at, request)
    }
}

impl<K: Keeper> AuthPort for FaultyPort<K> {
    type Origin = BookOrigin;

    ghost port = { faulty_port };

    fn ask(&mut self, sid: u64, at: u64, request: Request) -> Result<Reply, PortFault>
        ensures asks { Asks result sid at request (faulty_port self.old) (faulty_port self.new) }
        ensures answer { AnswersAsTold result sid at request self.old self.new }
    {
        if self.is_failing() {
            self.count_fault();
            return Err(PortFault::Link);
        }
        match self.ask_book(sid, at, request) {
            Ok(reply) => Ok(reply),
            Err(NoMemory) => Err(PortFault::NoMemory),
        }
    }
}
