//! What a pass knows, as the queue's rule names it. No value of it is made: proofs alone speak of it.
use std::collections::LinkedList;

pub struct Log<T> {
    /// Its parts of the right to know the whole.
    pub parts: u64,
    /// What the queue began with.
    pub began: LinkedList<T>,
    /// What it has put.
    pub put: LinkedList<T>,
    /// What it has taken.
    pub taken: LinkedList<T>,
}
