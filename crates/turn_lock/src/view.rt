//! What a seat at the table knows. No value of these types is made: proofs alone speak of them.
use crate::StandsFor;
use crate::rule::Law;
use atomic_table::{Seat, Shared};
use std::collections::LinkedList;
use std::snapshot::Snapshot;

/// What a seat has to do with the turn.
pub enum Hold<E> {
    /// It hasn't the turn.
    Away,
    /// It has the turn, and the list was this one.
    Claimed {
        list: LinkedList<E>,
    },
    /// It has the turn, and has seen the whole list.
    Loaded,
    /// It has met another; what the two had seen.
    Met {
        own: LinkedList<E>,
        other: LinkedList<E>,
    },
}

pub struct View<E, O> {
    /// The front of the list that was seen.
    pub seen: LinkedList<E>,
    /// The places of its own entries.
    pub mine: LinkedList<u64>,
    /// The places of the entries of those that it met.
    pub met: LinkedList<u64>,
    /// How many of the parts of its lock it has: all seats have 2^64 of them together, or fewer. No value has a number of
    /// that size: proofs alone speak of it.
    pub parts: u64,
    pub limit: u64,
    /// Nothing in a seat that was joined to another.
    pub origin: Option<O>,
    pub hold: Hold<E>,
}

/// The table under a lock, as threads share it.
pub(crate) type Desk<V> = Shared<
    Option<V>,
    View<<V as StandsFor>::Entry, <V as StandsFor>::Origin>,
    Snapshot<V>,
    Law,
>;

/// What a thread steps with.
pub(crate) type Place<V> = Seat<Option<V>, View<<V as StandsFor>::Entry, <V as StandsFor>::Origin>>;
