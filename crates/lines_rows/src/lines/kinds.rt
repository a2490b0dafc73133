//! The kinds of row.

use crate::lines::every::tell_every;
use crate::lines::ftp::{tell_command, tell_find_six, tell_read_six, tell_write_six};
use crate::lines::heard::{tell_first_line, tell_telnet};
use crate::lines::mail::{tell_bodies, tell_body, tell_mail, tell_path};
use crate::lines::replies::{tell_first_code, tell_replies};
use fw_types::NoMemory;
use lines_of_rows::{Rows, Told, add};
use std::alloc::Global;

/// Knows the kinds of row.
#[derive(Drop)]
pub(crate) struct Kinds;

/// Tells of a text by a kind that one call answers.
pub(crate) fn tell_text(kind: &str, asked: &[u8], out: &mut Told) {
    match kind {
        "command" => tell_command(asked, out),
        "replies" => tell_replies(asked, out),
        "first-code" => tell_first_code(asked, out),
        "read-six" => tell_read_six(asked, out),
        "find-six" => tell_find_six(asked, out),
        "telnet" => tell_telnet(asked, out),
        "first-line" => tell_first_line(asked, out),
        "mail" => tell_mail(asked, out),
        "path" => tell_path(asked, false, out),
        "path-or-none" => tell_path(asked, true, out),
        "body" => tell_body(asked, out),
        "bodies" => tell_bodies(asked, out),
        _ => add(out, b"no such kind"),
    }
}

impl Rows for Kinds {
    fn tell(
        &mut self,
        alloc: Global,
        kind: &str,
        asked: &[u8],
        out: &mut Told,
    ) -> Result<(), NoMemory> {
        match kind {
            "write-six" => tell_write_six(alloc, asked, out)?,
            "every" => tell_every(asked, out),
            _ => tell_text(kind, asked, out),
        }
        Ok(())
    }
}
