//! Rows of slots' bytes, of disks in memory and of slots on them: each row of a file says what is told of what is
//! asked, by the kinds that [`kinds`] knows. `lines_of_rows` says how a row is written.

mod disks;
mod formats;
mod images;
mod kinds;
mod letters;
mod marks;
mod racks;
mod refills;
mod slots;

use kinds::Kinds;
use lines_of_rows::compare;
use std::io;

fn call_laws() {
    fw_disk::laws::a_sync_leaves_one_image();
    fw_disk::laws::the_bytes_as_read_are_an_image();
    fw_disk::laws::a_change_may_be_lost();
    fw_disk::laws::a_loose_byte_is_any();
    slot_bytes::laws::again();
    slot_bytes::laws::first_bad_byte();
    slot_bytes::laws::a_front_decides();
}

/// Compares the rows of these files, prints what comes of it, and tells whether all is as it is to be.
///
/// # Errors
///
/// What standard output answers.
pub fn try_rows(rt: HostRuntime, names: &[String]) -> io::Result<bool> {
    call_laws();
    compare(rt, &mut Kinds::new(rt.alloc()), names)
}
