use auth_events::Entry;
use auth_machine::BookOrigin;
use std::collections::LinkedList;
use std::marker::Model;

/// What stays as it was when a pass was handed in: the lock, and what the pass knew. Contracts alone name it: no value of
/// it is made.
pub struct SharedOrigin {
    home: LinkedList<u64>,
    begun: u64,
    limit: u64,
    origin: BookOrigin,
    seen: LinkedList<Entry>,
    mine: LinkedList<u64>,
    met: LinkedList<u64>,
    parts: u64,
}

impl Model for SharedOrigin {
    ghost use Rattle.auth_port.specs.Shared.{SharedOrigin};
    ghost use Rattle.turn_lock.specs.Known.{knowing};

    ghost Value = { SharedOrigin };

    ghost view = { λ s. record {
      lock = record {
        home = s.home;
        begun = s.begun;
        limit = s.limit;
        origin = s.origin;
      };
      first = knowing (record { home = s.home; begun = s.begun; limit = s.limit; origin = s.origin })
          s.parts s.seen s.mine s.met;
    } };
}
