//! Who rests between rounds of work.

use acceptors::Pacer;
use std::thread;
use std::time::{Clock, Duration};

/// Rests as long as it was told, by the clock of the system.
#[derive(Clone, Copy, Drop)]
pub struct SystemPacer<R> {
    system: R,
    milliseconds: u32,
    long: u32,
}

impl<R> SystemPacer<R> {
    /// Rests so many milliseconds each time, and so many where it is to rest long.
    pub fn new(system: R, milliseconds: u32, long: u32) -> SystemPacer<R> {
        SystemPacer {
            system,
            milliseconds,
            long,
        }
    }
}

impl<R: Clock + Drop> SystemPacer<R> {
    fn sleep(&self, milliseconds: u32) {
        thread::sleep(&self.system, Duration::from_millis(u64::from(milliseconds)));
    }
}

impl<R: Clock + Drop> Pacer for SystemPacer<R> {
    fn rest(&mut self) {
        self.sleep(self.milliseconds);
    }

    fn rest_long(&mut self) {
        self.sleep(self.long);
    }
}
