//! The kinds of row.

use crate::ready::telling::{
    tell_broken, tell_deaf, tell_lost, tell_record, tell_slots, tell_table, tell_unkept, tell_words,
};
use fw_types::NoMemory;
use lines_of_rows::{Rows, Told, add};
use std::alloc::Global;

/// Knows the kinds of row.
#[derive(Drop)]
pub(crate) struct Kinds;

impl Rows for Kinds {
    fn tell(
        &mut self,
        alloc: Global,
        kind: &str,
        asked: &[u8],
        out: &mut Told,
    ) -> Result<(), NoMemory> {
        match kind {
            "ready" => tell_words(alloc, asked, out)?,
            "table" => tell_table(alloc, asked, out)?,
            "record" => tell_record(alloc, asked, out)?,
            "lost" => tell_lost(alloc, asked, out)?,
            "deaf" => tell_deaf(alloc, asked, out)?,
            "slots" => tell_slots(alloc, asked, out)?,
            "broken" => tell_broken(alloc, asked, out)?,
            "unkept" => tell_unkept(alloc, asked, out)?,
            _ => add(out, b"no such kind"),
        }
        Ok(())
    }
}
