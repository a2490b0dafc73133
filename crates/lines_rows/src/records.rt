//! Rows of records, one-time passwords, the lines of `authsrv`, and the policy: each row of a file says what
//! is told of what is asked, by the kinds that [`kinds`] knows. `lines_of_rows` says how a row is written.

mod breaks;
mod down;
mod kinds;
mod passwords;
mod policy;
mod records;
mod remote;
mod replies;
mod requests;
mod spelling;

use kinds::Kinds;
use lines_of_rows::compare;
use std::io;

fn call_laws() {
    auth_records::laws::inverse();
    auth_records::laws::first_bad_byte();
    auth_records::laws::plain_data();
    otp_md5::laws::passwords();
    otp_words::laws::opens();
    otp_words::laws::challenges_are_read();
    otp_words::laws::inverse();
    otp_words::laws::a_dictionary_is_its_lines();
    authsrv_lines::laws::inverse();
    authsrv_lines::laws::asked_again();
}

/// Compares the rows of these files, prints what comes of it, and tells whether all is as it is to be.
///
/// # Errors
///
/// What standard output answers.
pub fn try_rows(rt: HostRuntime, names: &[String]) -> io::Result<bool> {
    call_laws();
    compare(rt, &mut Kinds::new(rt.alloc()), names)
}
