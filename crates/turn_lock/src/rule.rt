//! The rule of the table under a lock, and how views are cut and joined.
ghost use Rattle.turn_lock.specs.Views.{both, copied, first, lessened, spent};

use crate::StandsFor;
use crate::view::View;
use atomic_table::{Join, Split, TableRule};
use std::snapshot::Snapshot;

pub(crate) struct Law;

impl<V: StandsFor> TableRule<Option<V>, View<V::Entry, V::Origin>, Snapshot<V>> for Law {
    ghost use Rattle.turn_lock.specs.Law.{Kept};

    ghost holds = { λ about. Kept V.entries V.limit V.origin about.value };

    ghost first = { λ about. first (V.entries about.value) (V.limit about.value) (V.origin about.value) };
}

pub(crate) struct Halves;

impl<E, O> Split<View<E, O>> for Halves {
    ghost left = { lessened };

    ghost right = { copied };
}

pub(crate) struct Meeting;

impl<E, O> Join<View<E, O>> for Meeting {
    ghost both = { both };

    ghost spent = { spent };
}
