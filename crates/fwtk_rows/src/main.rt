//! Rows of runs and of the crates below: tries them, and says which come out otherwise. `docs/tests.md` and `docs/tests-scenes.md` say how rows
//! are written.
//!
//! `fwtk_rows FILE.. [-differ FILE..]` has whole runs. It prints `ok NAME` for each row that comes out as its file says, with the count
//! of further runs where the row has sweeps, and `differs NAME: WHAT` for each other one; last `N rows, M differ`. Each
//! row of a file behind `-differ` must come out otherwise than its file says: `ok NAME differs: WHAT` tells in what.
//! The status is 0 where all is well, 1 where a row isn't, and 2 where there is no file or one can't be read.
//!
//! `fwtk_rows SUBJECT: FILE.. [-differ FILE..] [SUBJECT: ..]` tries the rows, or plays the scenes, of the files of each subject, as
//! `lines_of_rows` says. The subject `runs` has whole runs. Words behind the four subjects that have no rows are passed over.
#![tactic(auto)]

mod above;
mod bastion_runner;
mod below;
mod beside;
mod commands;
mod files;
mod running;
mod serving;

use files::run_files;
use lines_of_rows::{Subjects, try_subjects};
use std::process::ExitCode;
use std::sync::Wait;
use std::thread::Threads;
use std::{env, io};

struct All;

impl Subjects for All {
    fn try_subject<H: Threads + Wait + Sync>(
        &self,
        threads: &H,
        rt: HostRuntime,
        name: &str,
        words: &[String],
    ) -> io::Result<Option<bool>> {
        if name == "runs" {
            return Ok(Some(run_files(threads, rt, words)? == 0));
        }
        if let Some(is_right) = below::try_subject(rt, name, words)? {
            return Ok(Some(is_right));
        }
        if let Some(is_right) = above::try_subject(threads, rt, name, words)? {
            return Ok(Some(is_right));
        }
        if let Some(is_right) = beside::print_subject(threads, rt, name)? {
            return Ok(Some(is_right));
        }
        real_rows::try_subject(threads, rt, name, words)
    }
}

// Whether the first word names a subject.
fn begins_with_subject(words: &[String]) -> bool {
    match words.first() {
        Some(word) => word.as_str().strip_suffix(":").is_some(),
        None => false,
    }
}

fn main(rt: HostRuntime) -> io::Result<ExitCode> {
    let mut words: Vec<String> = Vec::new(rt.alloc());
    for word in env::args(&rt)?.skip(1) {
        words.push(word)?;
    }
    if begins_with_subject(&words) {
        return try_subjects(&rt, rt, &All);
    }
    Ok(ExitCode::from(run_files(&rt, rt, &words)?))
}
