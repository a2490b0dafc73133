//! One row.

use crate::Runs;
use fw_types::NoMemory;
use lines_of_rows::{Told, unescape};
use std::alloc::Global;
use std::thread::Threads;

// What is told of the row with this left side.
fn told_of<H: Threads + Sync, R: Runs>(
    threads: &H,
    alloc: Global,
    runs: &R,
    left: &str,
) -> Result<Told, NoMemory> {
    let (kind, asked) = left.split_once(" ").unwrap_or((left, ""));
    let asked = unescape(alloc, asked)?;
    let mut out = Told::new();
    runs.tell(threads, alloc, kind, &asked, &mut out)?;
    Ok(out)
}

/// What is told of the row, where that isn't what it says.
pub(crate) fn difference<H: Threads + Sync, R: Runs>(
    threads: &H,
    alloc: Global,
    runs: &R,
    line: &str,
) -> Result<Option<Told>, NoMemory> {
    let (left, right) = line.split_once(" =>").unwrap_or((line, "\\x00no arrow"));
    let expected = unescape(alloc, right.strip_prefix(" ").unwrap_or(right))?;
    let told = told_of(threads, alloc, runs, left)?;
    if told.as_slice() == expected.as_slice() {
        return Ok(None);
    }
    Ok(Some(told))
}
