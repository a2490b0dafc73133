//! The subjects that have no rows: what is printed of them has to be as it stands in `stdout`.

use shared_rows::{book, pool, serve, turn};
use std::io;
use std::sync::Wait;
use std::thread::Threads;

/// Prints what comes of the subject of this name; `None` where it is none of these.
pub(crate) fn print_subject<H: Threads + Wait + Sync>(
    threads: &H,
    rt: HostRuntime,
    name: &str,
) -> io::Result<Option<bool>> {
    match name {
        "turn" => turn::print_all(threads, rt)?,
        "pool" => pool::print_all(threads, rt)?,
        "book" => book::print_all(threads, rt)?,
        "serve" => serve::print_all(threads, rt)?,
        _ => return Ok(None),
    }
    Ok(Some(true))
}
