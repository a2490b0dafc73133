//! Rows of the texts of `bastion`: the lines and statuses of faults and endings, and what a denied client is told. Each row of a
//! file says what is told of what is asked, by the kinds that [`kinds`] knows. `lines_of_rows` says how a row is
//! written. Whole runs are the rows of `fwtk_rows`.

mod kinds;
mod naming;
mod telling;

use kinds::Kinds;
use lines_of_rows::compare;
use std::io;

/// Compares the rows of these files, prints what comes of it, and tells whether all is as it is to be.
///
/// # Errors
///
/// What standard output answers.
pub fn try_rows(rt: HostRuntime, names: &[String]) -> io::Result<bool> {
    compare(rt, &mut Kinds, names)
}
