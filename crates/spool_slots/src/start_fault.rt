use crate::{Broken, Free};
use fw_disk::Disk;

/// Why no message was begun.
#[derive(Drop)]
pub enum StartFault<D: Disk> {
    /// There is no memory; the disk wasn't called.
    NoMemory(Free<D>),
    /// The disk failed.
    Disk(Broken<D>),
}
