//! What is told of a keeper in memory.

use crate::devices::calls_of;
use fw_memory::MemKeeper;
use fw_outside::{KeepFault, Keeper};
use fw_types::{Name, NoMemory, Octets};
use lines_of_rows::{Told, add, add_number, add_word, cut, cut_word};
use std::alloc::Global;

// The entries of the texts `NAME=BYTES` between commas.
fn entries_of(alloc: Global, texts: &[u8]) -> Result<Vec<(Name, Octets)>, NoMemory> {
    let mut entries = Vec::new(alloc);
    for text in texts.split(|byte| *byte == b',') {
        let (name, bytes) = cut(text, b'=');
        if let Some(name) = Name::read(name) {
            entries.push((name, Octets::copy(alloc, bytes)?))?;
        }
    }
    Ok(entries)
}

fn tell_answer(answer: Result<(), KeepFault>, out: &mut Told) {
    match answer {
        Ok(()) => add_word(out, b"ok"),
        Err(KeepFault::Failed) => add_word(out, b"failed"),
        Err(KeepFault::NoMemory) => add_word(out, b"no-memory"),
    }
}

fn tell_load(keeper: &mut MemKeeper, out: &mut Told) {
    let Ok(loaded) = keeper.load() else {
        return add_word(out, b"failed");
    };
    for entry in &loaded {
        add_word(out, entry.0.text());
        add(out, b"=");
        add(out, entry.1.bytes());
    }
}

fn tell_change(keeper: &mut MemKeeper, change: &[u8], out: &mut Told) {
    let (name, bytes) = cut(change, b'=');
    let Some(name) = Name::read(name) else {
        return add_word(out, b"no-name");
    };
    if bytes.is_empty() {
        tell_answer(keeper.drop_name(&name), out);
    } else {
        tell_answer(keeper.put(&name, bytes), out);
    }
}

/// `keeper FAILS NAME=BYTES,.. CALL .. => ANSWER ..`: `NAME=BYTES` puts, `NAME` alone drops, `-load` loads, and
/// `-count` counts the entries that the keeper has.
pub(crate) fn tell_keeper(alloc: Global, asked: &[u8], out: &mut Told) -> Result<(), NoMemory> {
    let (fails, rest) = cut_word(asked);
    let (entries, calls) = cut_word(rest);
    let entries = entries_of(alloc, entries)?;
    let mut keeper = MemKeeper::new(alloc, entries, calls_of(alloc, fails)?);
    for call in calls.split(|byte| *byte == b' ') {
        match call {
            b"-load" => tell_load(&mut keeper, out),
            b"-count" => add_number(out, keeper.table().len() as u64),
            _ => tell_change(&mut keeper, call, out),
        }
    }
    Ok(())
}
