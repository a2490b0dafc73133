//! Rows of the table and its rules: each row of a file says what is told of what is asked, by the kinds that
//! [`kinds`] knows. `lines_of_rows` says how a row is written.
#![tactic(auto)]

mod decisions;
mod hours;
mod kinds;
mod options;
mod patterns;
mod sweeps;
mod tables;

use kinds::Kinds;
use lines_of_rows::compare;
use std::io;

/// Compares the rows of these files, prints what comes of it, and tells whether all is as it is to be.
///
/// # Errors
///
/// What standard output answers.
pub fn try_rows(rt: HostRuntime, names: &[String]) -> io::Result<bool> {
    compare(rt, &mut Kinds, names)
}
