//! The kinds of row.

use crate::links::launching::tell_program;
use crate::links::linking::{tell_door, tell_host, tell_link};
use crate::links::mailing::tell_mail;
use fw_types::NoMemory;
use lines_of_rows::{Rows, Told, add};
use real_links::can_be_looked_up;
use std::alloc::Global;

/// Knows the kinds of row.
#[derive(Drop)]
pub(crate) struct Kinds {
    pub(crate) rt: HostRuntime,
}

/// `name TEXT => yes`, or `no`: whether it may be looked up.
fn tell_name(asked: &[u8], out: &mut Told) {
    if can_be_looked_up(asked) {
        add(out, b"yes");
    } else {
        add(out, b"no");
    }
}

impl Rows for Kinds {
    fn tell(
        &mut self,
        alloc: Global,
        kind: &str,
        asked: &[u8],
        out: &mut Told,
    ) -> Result<(), NoMemory> {
        match kind {
            "program" => return tell_program(self.rt, alloc, asked, out),
            "mail" => return tell_mail(self.rt, alloc, asked, out),
            "name" => tell_name(asked, out),
            "host" => tell_host(self.rt, asked, out),
            "door" => tell_door(self.rt, asked, out),
            "link" | "side" | "back" => tell_link(self.rt, kind, asked, out),
            _ => add(out, b"no such kind"),
        }
        Ok(())
    }
}
