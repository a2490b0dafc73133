//! What is told of a run.

use crate::jobs::running::run_on;
use crate::world::Ended;
use fw_memory::{Calls, MemDisk};
use fw_types::{NoMemory, Octets};
use lines_of_rows::{Told, add_hex, add_number, add_word, cut, cut_word, from_hex, numbers_of};
use std::alloc::Global;
use std::str;
use std::thread::Threads;

fn tell_text(text: &[u8], out: &mut Told) {
    if !text.is_empty() {
        add_word(out, text);
    }
}

// The status, what was printed and what was logged.
fn tell_ended(ended: &Ended, out: &mut Told) {
    add_number(out, u64::from(ended.status));
    tell_text(ended.output.bytes(), out);
    tell_text(ended.logs.bytes(), out);
}

/// `run WORDS => STATUS OUTPUT LOG`: a run without disks.
pub(crate) fn tell_run<H: Threads + Sync>(
    threads: &H,
    alloc: Global,
    asked: &[u8],
    out: &mut Told,
) -> Result<(), NoMemory> {
    let none = Vec::new(alloc);
    tell_ended(&run_on(threads, alloc, asked, none, Calls::none())?, out);
    Ok(())
}

/// `deaf WORDS => STATUS OUTPUT LOG`: the same, and the output fails.
pub(crate) fn tell_deaf<H: Threads + Sync>(
    threads: &H,
    alloc: Global,
    asked: &[u8],
    out: &mut Told,
) -> Result<(), NoMemory> {
    let none = Vec::new(alloc);
    tell_ended(&run_on(threads, alloc, asked, none, Calls::onward(0))?, out);
    Ok(())
}

// A disk: the digits of its bytes, a slash, and the numbers of its calls that fail, between commas.
fn disk_of(alloc: Global, text: &[u8]) -> Result<MemDisk, NoMemory> {
    let (digits, fails) = cut(text, b'/');
    let bytes = from_hex(alloc, str::from_utf8(digits).unwrap_or(""))?;
    let fails = Calls::of(alloc, &numbers_of(alloc, fails)?)?;
    Ok(MemDisk::new(alloc, Octets::of(bytes), fails))
}

fn disks_of(alloc: Global, text: &[u8]) -> Result<Vec<MemDisk>, NoMemory> {
    let mut disks = Vec::new(alloc);
    for disk in text.split(|byte| *byte == b';') {
        disks.push(disk_of(alloc, disk)?)?;
    }
    Ok(disks)
}

/// `disks DISK;DISK;... WORDS => STATUS OUTPUT LOG DIGITS DIGITS ...`: a run over these disks, and what they hold behind
/// it.
pub(crate) fn tell_disks<H: Threads + Sync>(
    threads: &H,
    alloc: Global,
    asked: &[u8],
    out: &mut Told,
) -> Result<(), NoMemory> {
    let (disks, words) = cut_word(asked);
    let disks = disks_of(alloc, disks)?;
    let ended = run_on(threads, alloc, words, disks, Calls::none())?;
    tell_ended(&ended, out);
    for disk in &ended.disks {
        add_hex(out, disk.bytes());
    }
    Ok(())
}
