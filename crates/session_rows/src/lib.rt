//! Rows of two small sessions of `session_acts` over devices in memory: each row of a file says what is told of what is
//! asked, by the kinds that [`kinds`] knows. `lines_of_rows` says how a row is written. The sessions are also the shortest
//! examples of a script: one passes lines to a server, the other puts its client through.
#![tactic(auto)]

mod devices;
mod kinds;
mod laws;
mod relay;
mod run;
mod telling;
mod through;

use kinds::Kinds;
use lines_of_runs::compare_runs;
use std::io;
use std::thread::Threads;

/// Compares the rows of these files, prints what comes of it, and tells whether all is as it is to be.
///
/// # Errors
///
/// What standard output answers.
pub fn try_rows<H: Threads + Sync>(
    threads: &H,
    rt: HostRuntime,
    names: &[String],
) -> io::Result<bool> {
    laws::the_course_is_kept::<()>();
    compare_runs(threads, rt, &Kinds, names)
}
