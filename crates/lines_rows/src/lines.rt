//! Rows of the lines of FTP (`ftp_lines`), Telnet (`telnet`) and mail (`smap_lines`): each row of a file says what is
//! told of what is asked, by the kinds that [`kinds`] knows. `lines_of_rows` says how a row is written.

mod every;
mod ftp;
mod heard;
mod kinds;
mod mail;
mod pieces;
mod replies;
mod telling;

use kinds::Kinds;
use lines_of_rows::compare;
use std::io;

fn call_laws() {
    ftp_lines::laws::six();
    ftp_lines::laws::replies();
    ftp_lines::laws::whole_texts();
    ftp_lines::laws::first_codes();
    ftp_lines::laws::commands();
    telnet::laws::items();
    telnet::laws::unfinished_items();
    telnet::laws::doubled_bytes();
    telnet::laws::line_ends();
    telnet::laws::plain_texts();
    telnet::laws::whole_texts();
    telnet::laws::first_lines();
    smap_lines::laws::written_bodies();
    smap_lines::laws::cut_texts();
    smap_lines::laws::whole_bodies();
    smap_lines::laws::paths();
    smap_lines::laws::commands();
}

/// Compares the rows of these files, prints what comes of it, and tells whether all is as it is to be.
///
/// # Errors
///
/// What standard output answers.
pub fn try_rows(rt: HostRuntime, names: &[String]) -> io::Result<bool> {
    call_laws();
    compare(rt, &mut Kinds, names)
}
