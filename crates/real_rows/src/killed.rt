//! Keeps messages in the slots 0 and 1 of a spool by turns, and tells the number of each message that is kept; then tells
//! what the two slots hold. A test kills it meanwhile and looks at what is left.

use fw_real::{FileDisk, SlotFile};
use held::tell_slot;
use spool_slots::format;
use std::fs::File;
use std::io::{self, ErrorKind, Stdout, Write};
use writing::{Slot, keep};

mod held;
mod writing;

/// A slot of the spool.
pub(crate) type SlotDisk = FileDisk<SlotFile, File>;

fn failure() -> io::Error {
    io::Error::from(ErrorKind::Other)
}

fn usage() -> io::Error {
    io::Error::from(ErrorKind::InvalidInput)
}

// The slot of this number, which is formatted.
fn slot(rt: HostRuntime, folder: &str, number: u32) -> io::Result<Slot> {
    match SlotFile::made(rt, folder.as_bytes(), number) {
        Ok(file) => match format(number, FileDisk::new(file)) {
            Ok(free) => Ok(Slot::Free(free)),
            Err(_) => Err(failure()),
        },
        Err(_) => Err(io::Error::from(ErrorKind::OutOfMemory)),
    }
}

fn tell(out: &mut Stdout, line: &str) -> io::Result<()> {
    out.write_all(line.as_bytes())
}

// Keeps the message of this number in the slot, and tells it.
fn keep_and_tell(rt: HostRuntime, slot: Slot, number: u64) -> io::Result<Slot> {
    let Some(kept) = keep(rt.alloc(), slot, number) else {
        return Err(failure());
    };
    let line = format!(in rt.alloc(); "{number}\n")?;
    tell(&mut rt.stdout(), &line)?;
    Ok(kept)
}

// Keeps so many messages by turns.
fn keep_all(rt: HostRuntime, folder: &str, first: u64, count: u64) -> io::Result<()> {
    let (mut next, mut other) = (slot(rt, folder, 0)?, slot(rt, folder, 1)?);
    for turn in 0..count {
        let kept = keep_and_tell(rt, next, first.wrapping_add(turn))?;
        next = other;
        other = kept;
    }
    Ok(())
}

/// Keeps messages in a spool, and tells what its two slots hold. The words are its folder, which is made, the number of the first
/// message, and how many there are: with none, the slots are looked at alone.
///
/// # Errors
///
/// `InvalidInput` for other words; what standard output answers; `OutOfMemory`; `Other` where a slot fails.
pub(crate) fn keep_by_words(rt: HostRuntime, words: &[String]) -> io::Result<()> {
    let [folder, first, count] = words else {
        return Err(usage());
    };
    let first: u64 = first.parse().ok().ok_or(usage())?;
    let count: u64 = count.parse().ok().ok_or(usage())?;
    if count > 0 {
        keep_all(rt, folder, first, count)?;
    }
    let mut out = rt.stdout();
    for number in 0..2u32 {
        let line = tell_slot(rt, folder, number)?;
        tell(&mut out, &line)?;
    }
    Ok(())
}
