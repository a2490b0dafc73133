//! What is told of a launcher in memory.

use crate::devices::calls_of;
use fw_memory::MemLauncher;
use fw_outside::{Launcher, Started};
use fw_types::{NoMemory, Octets, OctetsList};
use lines_of_rows::{Told, add, add_number, add_word, cut, cut_word, numbers_of};
use std::alloc::Global;

// The numbers between commas as bytes: 255 in place of each above it.
fn answers_of(alloc: Global, text: &[u8]) -> Result<Vec<u8>, NoMemory> {
    let mut answers = Vec::new(alloc);
    for number in &numbers_of(alloc, text)? {
        answers.push(u8::try_from(*number).unwrap_or(255))?;
    }
    Ok(answers)
}

/// The texts between commas, or none.
pub(crate) fn args_of(alloc: Global, texts: &[u8]) -> Result<OctetsList, NoMemory> {
    let mut args = OctetsList::new(alloc);
    if texts.is_empty() {
        return Ok(args);
    }
    for text in texts.split(|byte| *byte == b',') {
        if args.push(Octets::copy(alloc, text)?).is_err() {
            return Err(NoMemory);
        }
    }
    Ok(args)
}

fn tell_started(answer: Started, out: &mut Told) {
    match answer {
        Started::Ended(status) => add_number(out, u64::from(status)),
        Started::Failed => add_word(out, b"failed"),
    }
}

// The program, its arguments and how it ended.
fn tell_entry(entry: &(Octets, OctetsList, u8), out: &mut Told) {
    add_word(out, entry.0.bytes());
    for arg in entry.1.as_slice() {
        add(out, b",");
        add(out, arg.bytes());
    }
    add_number(out, u64::from(entry.2));
}

/// `launcher FAILS ANSWER,.. PROGRAM,ARGUMENT,.. .. => ANSWER .. PROGRAM,ARGUMENT,.. ANSWER ..`: what each start
/// answers, and then what the launcher says was started.
pub(crate) fn tell_launcher(alloc: Global, asked: &[u8], out: &mut Told) -> Result<(), NoMemory> {
    let (fails, rest) = cut_word(asked);
    let (answers, starts) = cut_word(rest);
    let answers = answers_of(alloc, answers)?;
    let mut launcher = MemLauncher::new(alloc, answers, calls_of(alloc, fails)?);
    for start in starts.split(|byte| *byte == b' ') {
        let (program, args) = cut(start, b',');
        tell_started(launcher.start(program, &args_of(alloc, args)?), out);
    }
    for entry in launcher.started() {
        tell_entry(entry, out);
    }
    Ok(())
}
