ghost use Rattle.std.specs.Prelude.{◌≡◌};

use crate::StandsFor;
use crate::view::{Place, View};
use atomic_table::Seat;
use std::marker::Model;

/// Knows a front of the list under a lock. It has no bytes. Contracts see it as what it knows.
#[derive(Drop)]
pub struct Pass<V: StandsFor> {
    pub(crate) seat: Seat<Option<V>, View<V::Entry, V::Origin>>,
}

impl<V: StandsFor> Model for Pass<V> {
    ghost use Rattle.turn_lock.specs.Known.{Known};

    ghost Value = { Known V.Entry V.Origin };

    ghost use Rattle.turn_lock.specs.Rest.{AtRest, known};

    ghost view = { λ pass. known pass.seat };

    ghost invariant = { λ pass. AtRest pass.seat };
}

impl<V: StandsFor> Pass<V> {
    ghost use Rattle.turn_lock.specs.Rest.{AtRest, known};

    pub(crate) fn into_seat(self) -> Place<V>
        ensures known { known result ≡ self }
        ensures rest { AtRest result }
    {
        let Pass { seat } = self;
        seat
    }
}
