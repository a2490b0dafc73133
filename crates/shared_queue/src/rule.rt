//! The rule of the queue, and what its steps tell. These types are for the proofs alone.
ghost use Rattle.std.specs.Prelude.{◌≡◌};
ghost use Rattle.shared_queue.specs.Steps.{begun, both, first, left, putting, right, spent, taking, Settled};

use crate::log::Log;
use crossbeam_queue::protocol::{Join, Lesson, Outcome, Protocol, Split};

pub(crate) struct Balance;

impl<T> Protocol<T, Log<T>> for Balance {
    ghost use Rattle.shared_queue.specs.Balance.{Balanced};

    ghost holds = { Balanced };

    ghost first = { first };
}

/// Puts what the queue begins with.
pub(crate) struct Begins;

impl<T> Outcome<T, Log<T>> for Begins {
    ghost then = { λ old item new. new ≡ begun old item };
}

impl<T> Lesson<T, Log<T>> for Begins {
    ghost fact = { Settled };
}

pub(crate) struct Puts;

impl<T> Outcome<T, Log<T>> for Puts {
    ghost then = { λ old item new. new ≡ putting old item };
}

impl<T> Lesson<T, Log<T>> for Puts {
    ghost fact = { Settled };
}

pub(crate) struct Takes;

impl<T> Outcome<T, Log<T>> for Takes {
    ghost then = { λ old item new. new ≡ taking old item };
}

impl<T> Lesson<T, Log<T>> for Takes {
    ghost fact = { Settled };
}

pub(crate) struct Cut;

impl<T> Split<Log<T>> for Cut {
    ghost left = { left };

    ghost right = { right };
}

pub(crate) struct Meeting;

impl<T> Join<Log<T>> for Meeting {
    ghost both = { both };

    ghost spent = { spent };
}
