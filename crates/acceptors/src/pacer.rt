//! Who rests between rounds of work.

/// Rests between rounds of work. No clause speaks of time.
pub trait Pacer: Drop {
    /// Rests for a while.
    fn rest(&mut self);

    /// Rests for longer, behind a round that had trouble.
    fn rest_long(&mut self);
}

/// A pacer that doesn't rest.
#[derive(Drop)]
pub struct MemPacer;

impl MemPacer {
    pub fn new() -> MemPacer {
        MemPacer
    }
}

impl Pacer for MemPacer {
    fn rest(&mut self) {}

    fn rest_long(&mut self) {}
}
