//! The kinds of row. Each asks for a session: the slots of its rack, the most bytes of a body and the most recipients of a
//! message, and what the client says, in which `^` stands for CR LF.

use crate::smap::queues::tell_put;
use crate::smap::stops::tell_stops;
use crate::smap::tellings::{tell_after, tell_bytes, tell_faults, tell_log, tell_replies};
use fw_types::NoMemory;
use lines_of_rows::{Rows, Told, add};
use std::alloc::Global;

/// Knows the kinds of row.
#[derive(Drop)]
pub(crate) struct Kinds;

impl Rows for Kinds {
    fn tell(
        &mut self,
        alloc: Global,
        kind: &str,
        asked: &[u8],
        out: &mut Told,
    ) -> Result<(), NoMemory> {
        match kind {
            "replies" => tell_replies(alloc, asked, out),
            "log" => tell_log(alloc, asked, out),
            "after" => tell_after(alloc, asked, out),
            "bytes" => tell_bytes(alloc, asked, out),
            "faults" => tell_faults(alloc, asked, out),
            "put" => tell_put(alloc, asked, out),
            "stops" => tell_stops(alloc, asked, out),
            _ => {
                add(out, b"no such kind");
                Ok(())
            }
        }
    }
}
