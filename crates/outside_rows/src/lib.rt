//! Rows of the plain types, the devices in memory, the reader of lines and the ways of a relay: each row of a file says
//! what is told of what is asked, by the kinds that [`kinds`] knows. `lines_of_rows` says how a row is written.
#![tactic(auto)]

mod devices;
mod dialing;
mod keeping;
mod kinds;
mod launching;
mod lines;
mod mailing;
mod signature;
mod values;
mod ways;

use kinds::Kinds;
use lines_of_rows::compare;
use std::io;

/// Compares the rows of these files, prints what comes of it, and tells whether all is as it is to be.
///
/// # Errors
///
/// What standard output answers.
pub fn try_rows(rt: HostRuntime, names: &[String]) -> io::Result<bool> {
    signature::laws_hold();
    compare(rt, &mut Kinds, names)
}
