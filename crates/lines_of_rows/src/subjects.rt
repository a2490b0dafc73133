//! The subjects whose rows a program tries.
ghost use Rattle.std.specs.Thread.{IsSync};

use std::process::ExitCode;
use std::sync::Wait;
use std::thread::Threads;
use std::{env, io};

/// Subjects whose rows are tried, each by its name.
pub trait Subjects {
    /// Does what the words ask for of the subject of this name, such as try the rows of files, and tells whether all is as it is to be;
    /// `None` where no subject has the name.
    ///
    /// # Errors
    ///
    /// What standard output answers.
    fn try_subject<H: Threads + Wait + Sync>(
        &self,
        threads: &H,
        rt: HostRuntime,
        name: &str,
        words: &[String],
    ) -> io::Result<Option<bool>>
        requires sync { IsSync H.row };
}

// Does what these words ask for of a subject.
fn try_one<H: Threads + Wait + Sync, S: Subjects>(
    threads: &H,
    rt: HostRuntime,
    subjects: &S,
    name: &str,
    words: &[String],
) -> io::Result<bool> {
    match subjects.try_subject(threads, rt, name, words)? {
        Some(is_right) => Ok(is_right),
        None => {
            println!(&rt; "{name}: no subject of this name is tried here")?;
            Ok(false)
        }
    }
}

// The subject that a word of the command line names, if it names one.
fn subject_of(word: &str) -> Option<&str> {
    word.strip_suffix(":")
}

/// Does what the command line asks for: a word `NAME:` names a subject, and the words behind it are its own. The status is 1 where
/// one of them isn't as it is to be, where no subject has a name, and where the first word names none, or there is no word.
///
/// # Errors
///
/// What standard output answers.
pub fn try_subjects<H: Threads + Wait + Sync, S: Subjects>(
    threads: &H,
    rt: HostRuntime,
    subjects: &S,
) -> io::Result<ExitCode> {
    let mut all = env::args(&rt)?.skip(1);
    let mut name = all.next();
    let mut words: Vec<String> = Vec::new(rt.alloc());
    let mut is_right = true;
    for word in all {
        if subject_of(word.as_str()).is_some() {
            is_right = try_named(threads, rt, subjects, name, words.as_slice())? && is_right;
            name = Some(word);
            words.clear();
        } else {
            words.push(word)?;
        }
    }
    is_right = try_named(threads, rt, subjects, name, words.as_slice())? && is_right;
    Ok(ExitCode::from(if is_right { 0 } else { 1 }))
}

// The same of the subject that a word names, if there is one and it names one.
fn try_named<H: Threads + Wait + Sync, S: Subjects>(
    threads: &H,
    rt: HostRuntime,
    subjects: &S,
    name: Option<String>,
    words: &[String],
) -> io::Result<bool> {
    match name.as_deref().and_then(subject_of) {
        Some(name) => try_one(threads, rt, subjects, name, words),
        None => {
            println!(&rt; "usage: SUBJECT: WORD.. [SUBJECT: WORD.. ..]")?;
            Ok(false)
        }
    }
}
