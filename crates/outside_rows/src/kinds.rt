//! The kinds of row.

use crate::devices::{tell_clock, tell_dice, tell_files, tell_sink, tell_source};
use crate::dialing::{tell_calls, tell_dialer};
use crate::keeping::tell_keeper;
use crate::launching::tell_launcher;
use crate::lines::tell_lines;
use crate::mailing::tell_mailer;
use crate::values::{
    tell_host, tell_name, tell_number, tell_octets, tell_order, tell_party, tell_peer, tell_port,
    tell_verb, tell_verbs,
};
use crate::ways::tell_way;
use fw_types::{NoMemory, read_numbered_port, read_port};
use lines_of_rows::{Rows, Told, add};
use std::alloc::Global;

/// Knows the kinds of row.
#[derive(Drop)]
pub(crate) struct Kinds;

// Tells of a value's text.
fn tell_value(kind: &str, asked: &[u8], out: &mut Told) {
    match kind {
        "name" => tell_name(asked, out),
        "order" => tell_order(asked, out),
        "host" => tell_host(asked, out),
        "peer" => tell_peer(asked, out),
        "party" => tell_party(asked, out),
        "verb" => tell_verb(asked, out),
        "verbs" => tell_verbs(asked, out),
        "number" => tell_number(asked, out),
        "port" => tell_port(read_port(asked), out),
        "port-number" => tell_port(read_numbered_port(asked), out),
        _ => add(out, b"no such kind"),
    }
}

impl Rows for Kinds {
    fn tell(
        &mut self,
        alloc: Global,
        kind: &str,
        asked: &[u8],
        out: &mut Told,
    ) -> Result<(), NoMemory> {
        match kind {
            "octets" => tell_octets(alloc, asked, out),
            "clock" => tell_clock(alloc, asked, out),
            "source" => tell_source(alloc, asked, out),
            "sink" => tell_sink(alloc, asked, out),
            "files" => tell_files(alloc, asked, out),
            "dialer" => tell_dialer(alloc, asked, out),
            "calls" => tell_calls(alloc, asked, out),
            "keeper" => tell_keeper(alloc, asked, out),
            "launcher" => tell_launcher(alloc, asked, out),
            "mailer" => tell_mailer(alloc, asked, out),
            "lines" => tell_lines(alloc, asked, out),
            "way" => tell_way(alloc, asked, out),
            "dice" => {
                tell_dice(asked, out);
                Ok(())
            }
            _ => {
                tell_value(kind, asked, out);
                Ok(())
            }
        }
    }
}
