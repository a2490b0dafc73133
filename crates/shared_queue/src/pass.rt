ghost use Rattle.std.specs.Prelude.{◌≡◌, []};

use crate::log::Log;
use crossbeam_queue::Pass;
use std::marker::Model;

/// Knows what it put into one queue and took from it, and how many of its counted takes gave none. Only that count has bytes. Contracts see it as
/// what it knows.
#[derive(Drop)]
pub struct QueuePass<T: Drop> {
    pub(crate) pass: Pass<T, Log<T>>,
    pub(crate) misses: u64,
}

impl<T: Drop> Model for QueuePass<T> {
    ghost use Rattle.std.specs.Prelude.{◌≡◌, []};
    ghost use Rattle.shared_queue.specs.Moves.{Moves};
    ghost use Rattle.shared_queue.specs.Rest.{moves_of};

    ghost Value = { Moves T };

    ghost view = { λ p. moves_of p.pass p.misses };

    ghost invariant = { λ p. p.pass.me.1 ≡ [] };
}

impl<T: Drop> QueuePass<T> {
    ghost use Rattle.shared_queue.specs.Rest.{moves_of};

    pub(crate) fn into_parts(self) -> (Pass<T, Log<T>>, u64)
        ensures moves { moves_of result.0 result.1 ≡ self }
        ensures empty { result.0.me.1 ≡ [] }
    {
        let QueuePass { pass, misses } = self;
        (pass, misses)
    }
}
