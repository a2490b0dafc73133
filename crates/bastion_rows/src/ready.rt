//! Rows of servers that are made ready over devices in memory: each row of a file says what is told of what is asked, by the
//! kinds that [`Kinds`] knows. `lines_of_rows` says how a row is written.

mod kinds;
mod readying;
mod telling;

use kinds::Kinds;
use lines_of_rows::compare;
use std::io;

/// Compares the rows of these files, prints what comes of it, and tells whether all is as it is to be.
///
/// # Errors
///
/// What standard output answers.
pub fn try_rows(rt: HostRuntime, names: &[String]) -> io::Result<bool> {
    compare(rt, &mut Kinds, names)
}
