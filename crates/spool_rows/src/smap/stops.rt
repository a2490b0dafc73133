//! Sessions in which a slot's disk fails at one call after another.

use crate::smap::play::{Fails, Played, number_in_front, play};
use crate::smap::tellings::letter_of;
use fw_types::NoMemory;
use lines_of_rows::{Told, add, add_number, add_word};
use std::alloc::Global;

// How often a text tells that a message was kept.
fn count_kept(text: &[u8]) -> u64 {
    let mut count = 0u64;
    for line in text.split(|byte| *byte == b'\n') {
        if line.starts_with(b"250 Message kept in slot ") {
            count = count.saturating_add(1);
        }
    }
    count
}

// How many lines a text has.
fn count_lines(text: &[u8]) -> u64 {
    let mut count = 0u64;
    for byte in text {
        if *byte == b'\n' {
            count = count.saturating_add(1);
        }
    }
    count
}

// What the client was told of messages that were kept, how many lines the log has, and what the slots hold.
fn tell_run(alloc: Global, played: &Played, out: &mut Told) -> Result<(), NoMemory> {
    add_number(out, count_kept(played.to.bytes()));
    add_number(out, count_lines(played.log.bytes()));
    for disk in &played.disks {
        add(out, &[letter_of(alloc, disk)?]);
    }
    Ok(())
}

// The run in which the calls of this slot's disk fail from this one on.
fn tell_stop(
    alloc: Global,
    asked: &[u8],
    slot: u64,
    first: u64,
    out: &mut Told,
) -> Result<(), NoMemory> {
    let mut fails = Fails::none();
    fails.disk = Some((slot, first));
    match play(alloc, asked, fails)? {
        Some(played) => {
            let told = tell_run(alloc, &played, out);
            drop(played);
            told
        }
        None => {
            add_word(out, b"no rack");
            Ok(())
        }
    }
}

/// `stops SLOT RUNS SLOTS BYTES RCPTS CLIENT => KEPT LINES LETTERS ..`: for each run how many messages were told kept, how many
/// lines the log has, and what the slots hold. In the first run all calls of this slot's disk behind its opening fail, in the
/// next all but the first of these, and so on.
pub(crate) fn tell_stops(alloc: Global, asked: &[u8], out: &mut Told) -> Result<(), NoMemory> {
    let (slot, rest) = number_in_front(asked);
    let (runs, asked) = number_in_front(rest);
    for first in 0..runs.min(64) {
        tell_stop(alloc, asked, slot, first, out)?;
    }
    Ok(())
}
