//! Files of rows, compared with what is told.

use crate::Runs;
use crate::line::difference;
use fw_types::NoMemory;
use lines_of_rows::{Count, Sums, is_row, print_difference, print_file, read_file};
use std::io;
use std::thread::Threads;

// Whether the row is told as it says. Else what is told is printed.
fn is_told<H: Threads + Sync, R: Runs>(
    threads: &H,
    rt: &HostRuntime,
    runs: &R,
    line: &str,
) -> io::Result<bool> {
    match difference(threads, rt.alloc(), runs, line) {
        Ok(None) => return Ok(true),
        Ok(Some(told)) => print_difference(rt, line, told.as_slice())?,
        Err(NoMemory) => print_difference(rt, line, b"no memory")?,
    }
    Ok(false)
}

fn compare_text<H: Threads + Sync, R: Runs>(
    threads: &H,
    rt: &HostRuntime,
    runs: &R,
    text: &str,
) -> io::Result<Count> {
    let mut count = Count::none();
    for line in text.lines() {
        if is_row(line) {
            count.add_one(is_told(threads, rt, runs, line)?);
        }
    }
    Ok(count)
}

fn compare_file<H: Threads + Sync, R: Runs>(
    threads: &H,
    rt: &HostRuntime,
    runs: &R,
    name: &str,
) -> io::Result<Option<Count>> {
    let Some(text) = read_file(rt, name)? else {
        return Ok(None);
    };
    let count = compare_text(threads, rt, runs, text.as_str())?;
    print_file(rt, name, count)?;
    Ok(Some(count))
}

/// The same as `lines_of_rows::compare`, of runs.
///
/// # Errors
///
/// What standard output answers.
pub fn compare_runs<H: Threads + Sync, R: Runs>(
    threads: &H,
    rt: HostRuntime,
    runs: &R,
    names: &[String],
) -> io::Result<bool> {
    let mut sums = Sums::none();
    for name in names {
        if !sums.turns(name.as_str()) {
            sums.add_file(compare_file(threads, &rt, runs, name.as_str())?);
        }
    }
    sums.print(&rt, "rows")
}
