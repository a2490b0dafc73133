//! The kinds of row.

use crate::texts::telling::{tell_denied, tell_ending, tell_fault};
use fw_types::NoMemory;
use lines_of_rows::{Rows, Told, add};
use std::alloc::Global;

/// Knows the kinds of row.
#[derive(Drop)]
pub(crate) struct Kinds;

impl Rows for Kinds {
    fn tell(
        &mut self,
        _alloc: Global,
        kind: &str,
        asked: &[u8],
        out: &mut Told,
    ) -> Result<(), NoMemory> {
        match kind {
            "fault" => tell_fault(asked, out),
            "ending" => tell_ending(asked, out),
            "denied" => tell_denied(asked, out),
            _ => add(out, b"no such kind"),
        }
        Ok(())
    }
}
