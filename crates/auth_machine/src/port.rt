//! A book as a port.
ghost use Rattle.std.specs.Prelude.{◌≡◌};
ghost use Rattle.auth_events.specs.Port.{Asks};
ghost use Rattle.auth_machine.specs.Port.{book_port};

use crate::{Book, Loaded};
use auth_events::{AuthPort, PortFault, Reply, Request};
use fw_outside::Keeper;
use fw_types::NoMemory;
use std::marker::Model;

/// What stays as it was when a book was opened: the policy and the records that were loaded, how many entries fit, and
/// how often the keeper had failed and been called. Contracts alone name it: no value of it is made.
#[derive(Drop)]
pub struct BookOrigin {
    origin: Loaded,
    limit: u64,
    failed_before: u64,
    called_before: u64,
}

impl Model for BookOrigin {
    ghost use Rattle.auth_machine.specs.Port.{BookOrigin};

    ghost Value = { BookOrigin };

    ghost view = { λ b. record {
      origin = b.origin;
      limit = b.limit;
      failed_before = b.failed_before;
      called_before = b.called_before;
    } };
}

impl<K: Keeper> AuthPort for Book<K> {
    type Origin = BookOrigin;

    ghost port = { book_port };

    fn ask(&mut self, sid: u64, at: u64, request: Request) -> Result<Reply, PortFault>
        ensures { Asks result sid at request (book_port self.old) (book_port self.new) }
    {
        match Book::ask(self, sid, at, request) {
            Ok(reply) => Ok(reply),
            Err(NoMemory) => Err(PortFault::NoMemory),
        }
    }
}
