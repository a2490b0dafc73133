//! A book under a lock: it stands for its history.
ghost use Rattle.auth_machine.specs.Port.{book_origin};

use crate::{Book, BookOrigin};
use auth_events::Entry;
use fw_outside::Keeper;
use turn_lock::StandsFor;

impl<K: Keeper> StandsFor for Book<K> {
    type Entry = Entry;

    type Origin = BookOrigin;

    ghost entries = { λ book. book.history };

    ghost limit = { λ book. book.limit };

    ghost origin = { book_origin };

    fn count(&self) -> u64 {
        self.history().len() as u64
    }
}
