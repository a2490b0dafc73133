//! The subjects whose rows are of lines, tables, records, slots and small devices.

use lines_rows::{lines, records};
use spool_rows::spool;
use std::io;

/// Tries the rows of the files of these names, of the subject of this name; `None` where it is none of these.
pub(crate) fn try_subject(
    rt: HostRuntime,
    name: &str,
    words: &[String],
) -> io::Result<Option<bool>> {
    Ok(Some(match name {
        "lines" => lines::try_rows(rt, words)?,
        "outside" => outside_rows::try_rows(rt, words)?,
        "table" => table_rows::try_rows(rt, words)?,
        "records" => records::try_rows(rt, words)?,
        "spool" => spool::try_rows(rt, words)?,
        _ => return Ok(None),
    }))
}
