//! Rows of the devices of a process: each row of a file says what is told of what is asked, by the kinds that its subject
//! knows. `lines_of_rows` says how a row is written, and how the command line names subjects and files. The kinds of the subject
//! `real`, over real files, the real clock and a real database, are those of [`kinds`].
//!
//! Behind `links:` may also stand `-relay PORT PORT SECONDS` or `-door ADDRESS SECONDS`. `killed: FOLDER FIRST COUNT` and
//! `speed: WAY TABLE LABEL ADDRESSES ROUNDS` read no rows, nor does `doors:`, whose words are passed over.
#![tactic(auto)]

mod clocks;
mod disks;
mod doors;
mod halting;
mod killed;
mod kinds;
mod links;
mod records;
mod speed;
mod streams;
mod system;
mod telling;
mod uneven;

use kinds::Kinds;
use lines_of_rows::compare;
use std::io;
use std::sync::Wait;
use std::thread::Threads;

/// Does what these words ask for of the subject of this name; `None` where it is none of these.
///
/// # Errors
///
/// What a device or standard output answers.
pub fn try_subject<H: Threads + Wait + Sync>(
    threads: &H,
    rt: HostRuntime,
    name: &str,
    words: &[String],
) -> io::Result<Option<bool>> {
    Ok(Some(match name {
        "real" => compare(rt, &mut Kinds { rt }, words)?,
        "links" => links::try_rows(threads, rt, words)?,
        "doors" => doors::print_all(threads, rt).map(|()| true)?,
        "killed" => killed::keep_by_words(rt, words).map(|()| true)?,
        "speed" => speed::ask_by_words(&rt, words).map(|()| true)?,
        _ => return Ok(None),
    }))
}
