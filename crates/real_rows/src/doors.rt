//! Doors over loopback: what they tell of clients, that those of one port share a listener, and how they end.

mod clients;
mod ending;
mod names;
mod opening;

use std::io;
use std::thread::Threads;

/// Prints what comes of the doors.
///
/// # Errors
///
/// What standard output answers.
pub(crate) fn print_all<H: Threads + Sync>(threads: &H, rt: HostRuntime) -> io::Result<()> {
    names::tell(rt)?;
    clients::tell(rt)?;
    ending::tell(threads, rt)
}
