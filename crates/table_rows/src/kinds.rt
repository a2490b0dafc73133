//! The kinds of row.

use crate::decisions::{tell_decision, tell_destination, tell_rules, tell_service};
use crate::hours::tell_hours;
use crate::patterns::{tell_bucket, tell_list, tell_pattern, tell_single, tell_text, tell_words};
use crate::sweeps::tell_sweep;
use crate::tables::{tell_broken, tell_fault, tell_idle, tell_table};
use fw_types::NoMemory;
use lines_of_rows::{Rows, Told, add};
use std::alloc::Global;

/// Knows the kinds of row.
#[derive(Drop)]
pub(crate) struct Kinds;

// Tells of a kind that takes no memory.
fn tell_plain(kind: &str, asked: &[u8], out: &mut Told) {
    match kind {
        "pattern" => tell_pattern(asked, out),
        "parse" => tell_text(asked, out),
        "bucket" => tell_bucket(asked, out),
        "service" => tell_service(asked, out),
        "fault" => tell_fault(asked, out),
        _ => add(out, b"no such kind"),
    }
}

impl Rows for Kinds {
    fn tell(
        &mut self,
        alloc: Global,
        kind: &str,
        asked: &[u8],
        out: &mut Told,
    ) -> Result<(), NoMemory> {
        match kind {
            "list" => tell_list(alloc, asked, out),
            "words" => tell_words(alloc, asked, out),
            "single" => tell_single(alloc, asked, out),
            "table" => tell_table(alloc, asked, out),
            "fails" => tell_broken(alloc, asked, out),
            "idles" => tell_idle(alloc, asked, out),
            "rules" => tell_rules(alloc, asked, out),
            "decide" => tell_decision(alloc, asked, out),
            "goes" => tell_destination(alloc, asked, out),
            "hours" => tell_hours(alloc, asked, out),
            "sweep" => tell_sweep(alloc, asked, out),
            _ => {
                tell_plain(kind, asked, out);
                Ok(())
            }
        }
    }
}
