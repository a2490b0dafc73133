//! The subjects whose rows are of sessions and of runs.

use bastion_rows::{jobs, mail, ready, texts};
use spool_rows::{round, smap};
use std::io;
use std::thread::Threads;

/// Tries the rows of the files of these names, of the subject of this name; `None` where it is none of these.
pub(crate) fn try_subject<H: Threads + Sync>(
    threads: &H,
    rt: HostRuntime,
    name: &str,
    words: &[String],
) -> io::Result<Option<bool>> {
    Ok(Some(match name {
        "session" => session_rows::try_rows(threads, rt, words)?,
        "smap" => smap::try_rows(rt, words)?,
        "round" => round::try_rows(rt, words)?,
        "auth" => auth_rows::play_files(threads, rt, words)?,
        "bastion" => texts::try_rows(rt, words)?,
        "jobs" => jobs::try_rows(threads, rt, words)?,
        "mail" => mail::try_rows(threads, rt, words)?,
        "ready" => ready::try_rows(rt, words)?,
        _ => return Ok(None),
    }))
}
