//! A list of numbers, which a call makes longer by one.
ghost use Rattle.std.specs.Prelude.{◌≡◌, ◌++◌, ◌∷◌, [], List, length, MatchOption};

use std::alloc::Global;
use turn_lock::{StandsFor, TurnCall};

#[derive(Drop)]
pub struct Tally {
    entries: Vec<u64>,
    limit: u64,
}

impl Tally {
    pub fn new(alloc: Global, limit: u64) -> Tally
        ensures { (result.entries.items ≡ []) × (result.limit ≡ limit) }
    {
        Tally {
            entries: Vec::new(alloc),
            limit,
        }
    }

    pub fn into_entries(self) -> Vec<u64>
        ensures { result.items ≡ self.entries.items }
    {
        let Tally { entries, .. } = self;
        entries
    }
}

impl StandsFor for Tally {
    type Entry = u64;

    type Origin = ();

    ghost entries = { λ tally. tally.entries.items };

    ghost limit = { λ tally. tally.limit };

    ghost origin = { λ tally. tt };

    fn count(&self) -> u64 {
        self.entries.len() as u64
    }
}

/// Adds this number, and answers its place, where there is room and memory.
#[derive(Drop)]
pub struct Add {
    pub what: u64,
}

impl TurnCall<Tally> for Add {
    type Answer = Option<u64>;

    ghost does = { λ add before limit origin answer after. MatchOption answer (after ≡ before) (λ place. (place ≡ length before) × (after ≡ before ++ add.what ∷ [])) };

    fn apply(self, value: &mut Tally) -> Option<u64> {
        let place = value.entries.len() as u64;
        if place >= value.limit {
            return None;
        }
        match value.entries.push(self.what) {
            Ok(()) => Some(place),
            Err(_) => None,
        }
    }
}
