//! What is told of slots on disks in memory.

use crate::spool::disks::disk_of;
use crate::spool::slots::letter_of;
use fw_memory::MemDisk;
use fw_types::NoMemory;
use lines_of_rows::{Told, add_hex, add_number, add_word, cut_word};
use spool_slots::format;
use std::alloc::Global;

// How many images were read as what.
#[derive(Clone, Copy)]
struct Counts {
    free: u64,
    full: u64,
    aside: u64,
    bad: u64,
}

// Counts an image by the letter of what it is read as.
fn count(letter: u8, counts: &mut Counts) {
    match letter {
        b'f' => counts.free = counts.free.saturating_add(1),
        b'w' => counts.full = counts.full.saturating_add(1),
        b'a' => counts.aside = counts.aside.saturating_add(1),
        _ => counts.bad = counts.bad.saturating_add(1),
    }
}

fn formatted(alloc: Global, asked: &[u8], out: &mut Told) -> Result<MemDisk, NoMemory> {
    let (digits, fails) = cut_word(asked);
    match format(7, disk_of(alloc, digits, fails)?) {
        Ok(free) => {
            add_word(out, b"free");
            add_number(out, u64::from(free.number()));
            Ok(free.into_disk())
        }
        Err(broken) => {
            add_word(out, b"broken");
            add_number(out, u64::from(broken.number()));
            Ok(broken.into_disk())
        }
    }
}

/// `format DIGITS. FAILS => free 7 DIGITS`, or `broken 7 DIGITS`: what comes of formatting a disk, and its bytes as
/// read.
pub(crate) fn tell_format(alloc: Global, asked: &[u8], out: &mut Told) -> Result<(), NoMemory> {
    let disk = formatted(alloc, asked, out)?;
    add_hex(out, disk.bytes());
    drop(disk);
    Ok(())
}

// The letter of the image that the number picks after a format.
fn image_letter(alloc: Global, asked: &[u8], pick: u64) -> Result<u8, NoMemory> {
    let disk = formatted(alloc, asked, &mut Told::new())?;
    let image = disk.crash(pick)?;
    let letter = letter_of(alloc, image.bytes());
    drop(image);
    letter
}

/// `format-crashes DIGITS. FAILS => FREE FULL ASIDE BAD`: how many of the images that the numbers 0 to 15 pick after it
/// are read as what.
pub(crate) fn tell_crashes(alloc: Global, asked: &[u8], out: &mut Told) -> Result<(), NoMemory> {
    let mut counts = Counts {
        free: 0,
        full: 0,
        aside: 0,
        bad: 0,
    };
    for pick in 0..16 {
        count(image_letter(alloc, asked, pick)?, &mut counts);
    }
    add_number(out, counts.free);
    add_number(out, counts.full);
    add_number(out, counts.aside);
    add_number(out, counts.bad);
    Ok(())
}
