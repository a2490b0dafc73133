//! Asking a book in a turn.
ghost use Rattle.std.specs.Prelude.{◌≡◌};
ghost use Rattle.auth_machine.specs.Answers.{full_of};
ghost use Rattle.auth_port.specs.Asking.{AsksInTurn, answered_at};

use auth_events::{Denial, Reply, Request};
use auth_machine::Book;
use fw_outside::Keeper;
use fw_types::NoMemory;
use turn_lock::{StandsFor, TurnCall};

/// Asks this request of a book, for the session of this number, at this moment in seconds.
#[derive(Drop)]
pub struct Asking {
    pub sid: u64,
    pub at: u64,
    pub request: Request,
}

/// What a book answered in a turn.
#[derive(Drop)]
pub enum Answered {
    /// An entry was made, at this place.
    Entered { place: u64, reply: Reply },
    /// So many entries are there as fit.
    Full { limit: u64 },
    NoMemory,
}

// How many entries fit, where a reply says that they are there.
fn limit_told(reply: &Reply) -> Option<u64>
    ensures { result ≡ full_of reply.now }
{
    match reply {
        Reply::Denied(Denial::Full { limit }) => Some(*limit),
        _ => None,
    }
}

// A reply of a book that had so many entries.
fn answer_of(place: u64, reply: Reply) -> Answered
    ensures { result ≡ answered_at (full_of reply) place reply }
{
    match limit_told(&reply) {
        None => Answered::Entered { place, reply },
        Some(limit) => Answered::Full { limit },
    }
}

impl<K: Keeper> TurnCall<Book<K>> for Asking {
    type Answer = Answered;

    ghost does = { λ call before limit origin answer now.
        AsksInTurn call.sid call.at call.request before limit origin answer now };

    fn apply(self, book: &mut Book<K>) -> Answered {
        let Asking { sid, at, request } = self;
        let place = book.count();
        match Book::ask(book, sid, at, request) {
            Ok(reply) => answer_of(place, reply),
            Err(NoMemory) => Answered::NoMemory,
        }
    }
}
