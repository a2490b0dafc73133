//! The kinds of row. Each asks for a round: the slots of its rack, the mailer's answers, and how many turns there may be.

use crate::round::stops::{tell_crashes, tell_logs, tell_stops};
use crate::round::tellings::{tell_accepted, tell_log, tell_round};
use fw_types::NoMemory;
use lines_of_rows::{Rows, Told, add};
use std::alloc::Global;

/// Knows the kinds of row.
#[derive(Drop)]
pub(crate) struct Kinds;

impl Rows for Kinds {
    fn tell(
        &mut self,
        alloc: Global,
        kind: &str,
        asked: &[u8],
        out: &mut Told,
    ) -> Result<(), NoMemory> {
        match kind {
            "round" => tell_round(alloc, asked, out),
            "log" => tell_log(alloc, asked, out),
            "accepted" => tell_accepted(alloc, asked, out),
            "stops" => tell_stops(alloc, asked, out),
            "crashes" => tell_crashes(alloc, asked, out),
            "logs" => tell_logs(alloc, asked, out),
            _ => {
                add(out, b"no such kind");
                Ok(())
            }
        }
    }
}
