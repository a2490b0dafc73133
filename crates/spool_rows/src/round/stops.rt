//! Rounds in which a slot's disk or the log fails at one call after another.

use crate::round::asked::Fails;
use crate::round::play::{disk_after, number_in_front, play};
use crate::round::tellings::{add_played, letter_of};
use fw_memory::MemDisk;
use fw_types::NoMemory;
use lines_of_rows::{Told, add, add_word};
use std::alloc::Global;

// So many images are picked.
const PICKS: u64 = 16;

fn tell_run(alloc: Global, asked: &[u8], fails: Fails, out: &mut Told) -> Result<(), NoMemory> {
    match play(alloc, asked, fails)? {
        Some(played) => add_played(alloc, played, out)?,
        None => add_word(out, b"no rack"),
    }
    add(out, b";");
    Ok(())
}

// Those of the disk of this slot from this one on.
fn of_disk(slot: u64, first: u64) -> Fails {
    Fails {
        disk: Some((slot, first)),
        log: None,
    }
}

/// `stops SLOT RUNS SLOTS ANSWERS TURNS => ROUND; ..`: for each run what kind `round` tells. In the first run all calls of this
/// slot's disk fail, in the next all but the first, and so on.
pub(crate) fn tell_stops(alloc: Global, asked: &[u8], out: &mut Told) -> Result<(), NoMemory> {
    let (slot, rest) = number_in_front(asked);
    let (runs, asked) = number_in_front(rest);
    for first in 0..runs.min(64) {
        tell_run(alloc, asked, of_disk(slot, first), out)?;
    }
    Ok(())
}

/// `logs RUNS SLOTS ANSWERS TURNS => ROUND; ..`: for each run what kind `round` tells. In the first run all calls of the log
/// fail, in the next all but the first, and so on.
pub(crate) fn tell_logs(alloc: Global, asked: &[u8], out: &mut Told) -> Result<(), NoMemory> {
    let (runs, asked) = number_in_front(asked);
    for first in 0..runs.min(64) {
        let fails = Fails {
            disk: None,
            log: Some(first),
        };
        tell_run(alloc, asked, fails, out)?;
    }
    Ok(())
}

// A letter for the image that the number picks.
fn image_letter(alloc: Global, disk: MemDisk, pick: u64) -> Result<u8, NoMemory> {
    let image = disk.crash(pick)?;
    let letter = letter_of(alloc, &image);
    drop(image);
    letter
}

// A letter for one image that a crash may leave of the slot's disk.
fn tell_image(
    alloc: Global,
    asked: &[u8],
    slot: u64,
    first: u64,
    pick: u64,
    out: &mut Told,
) -> Result<(), NoMemory> {
    let letter = match disk_after(alloc, asked, of_disk(slot, first), slot)? {
        Some(disk) => image_letter(alloc, disk, pick)?,
        None => b'-',
    };
    add(out, &[letter]);
    Ok(())
}

fn tell_images(
    alloc: Global,
    asked: &[u8],
    slot: u64,
    first: u64,
    out: &mut Told,
) -> Result<(), NoMemory> {
    for pick in 0..PICKS {
        tell_image(alloc, asked, slot, first, pick, out)?;
    }
    Ok(())
}

/// `crashes SLOT RUNS SLOTS ANSWERS TURNS => LETTERS ..`: for each run, as in `stops`, what 16 images are read as that a crash
/// may leave of this slot's disk after the round.
pub(crate) fn tell_crashes(alloc: Global, asked: &[u8], out: &mut Told) -> Result<(), NoMemory> {
    let (slot, rest) = number_in_front(asked);
    let (runs, asked) = number_in_front(rest);
    for first in 0..runs.min(64) {
        add_word(out, b"");
        tell_images(alloc, asked, slot, first, out)?;
    }
    Ok(())
}
