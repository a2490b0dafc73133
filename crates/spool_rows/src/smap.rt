//! Rows of sessions of mail over racks of slots on disks in memory: each row of a file says what is told of what is asked, by
//! the kinds that [`kinds`] knows. `lines_of_rows` says how a row is written.

mod kinds;
mod play;
mod queues;
mod stops;
mod tellings;

use kinds::Kinds;
use lines_of_rows::compare;
use std::io;

fn call_laws() {
    smap_gate::laws::each_reply_is_told::<()>();
}

/// Compares the rows of these files, prints what comes of it, and tells whether all is as it is to be.
///
/// # Errors
///
/// What standard output answers.
pub fn try_rows(rt: HostRuntime, names: &[String]) -> io::Result<bool> {
    call_laws();
    compare(rt, &mut Kinds, names)
}
