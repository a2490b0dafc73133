//! Who serves the clients of a door.
use crate::passes::PassesOf;
use crate::report::Served;

/// A worker: its door, its passes, which it has but while it holds a session, the sessions so far, and whether it wanted memory.
#[derive(Drop)]
pub(crate) struct Worker<A, P> {
    pub(crate) door: A,
    pub(crate) passes: Option<P>,
    pub(crate) sessions: Vec<Served>,
    pub(crate) short: bool,
}

/// A worker over a book of this keeper, and a pool of these disks.
pub(crate) type WorkerOf<A, K, D> = Worker<A, PassesOf<K, D>>;
