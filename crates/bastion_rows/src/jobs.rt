//! Rows of runs of the commands that need no table, over devices in memory: each row of a file says what is told of what
//! is asked, by the kinds that [`kinds`] knows. `lines_of_rows` says how a row is written.

mod kinds;
mod running;
mod scan;
mod sweep;
mod telling;

use kinds::Kinds;
use lines_of_runs::compare_runs;
use std::io;
use std::thread::Threads;

/// Compares the rows of these files, prints what comes of it, and tells whether all is as it is to be.
///
/// # Errors
///
/// What standard output answers.
pub fn try_rows<H: Threads + Sync>(
    threads: &H,
    rt: HostRuntime,
    names: &[String],
) -> io::Result<bool> {
    compare_runs(threads, rt, &Kinds, names)
}
