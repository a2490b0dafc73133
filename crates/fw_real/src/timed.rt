use std::fs::File;
use std::io;

/// What is read, and may wait for bytes that come later.
pub trait Timed {
    /// Sets how many seconds a read waits at most. What never waits takes any number.
    fn set_wait(&self, seconds: u32) -> io::Result<()>;

    /// Whether a read that was refused so had waited, and nothing came.
    fn is_late(&self, fault: &io::Error) -> bool;
}

impl Timed for File {
    fn set_wait(&self, _: u32) -> io::Result<()> {
        Ok(())
    }

    fn is_late(&self, _: &io::Error) -> bool {
        false
    }
}
