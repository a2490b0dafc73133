//! What is told of a run.

use crate::mail::asked::Asked;
use crate::mail::breaking::{Broken, Part, UNBROKEN};
use crate::mail::running::run_over;
use crate::world::Ended;
use fw_memory::MemDisk;
use fw_types::NoMemory;
use lines_of_rows::{Told, add, add_hex, add_number, add_word, cut_word, number_of};
use slot_bytes::{Slot, SlotFault, read_slot};
use std::alloc::Global;
use std::thread::Threads;

// A text, with `^` for each CR LF and for each other LF.
fn add_text(out: &mut Told, text: &[u8]) {
    for byte in text {
        match byte {
            b'\r' => (),
            b'\n' => add(out, b"^"),
            other => add(out, &[*other]),
        }
    }
}

pub(crate) fn tell_text(text: &[u8], out: &mut Told) {
    if !text.is_empty() {
        add_word(out, b"");
        add_text(out, text);
    }
}

fn letter_in(slot: &Slot) -> u8 {
    match slot {
        Slot::Free => b'f',
        Slot::Whole(_) => b'w',
        Slot::Aside(_) => b'a',
    }
}

// A letter for what a disk's bytes are read as: `f` free, `w` whole, `a` aside, `b` bad.
fn letter_of(alloc: Global, disk: &MemDisk) -> Result<u8, NoMemory> {
    match read_slot(alloc, disk.bytes()) {
        Ok(slot) => {
            let letter = letter_in(&slot);
            drop(slot);
            Ok(letter)
        }
        Err(SlotFault::Bad { .. }) => Ok(b'b'),
        Err(SlotFault::NoMemory) => Err(NoMemory),
    }
}

// The status, what was printed or the client was told, what was logged, and what the slots hold.
pub(crate) fn tell_ended(alloc: Global, ended: &Ended, out: &mut Told) -> Result<(), NoMemory> {
    add_number(out, u64::from(ended.status));
    tell_text(ended.output.bytes(), out);
    tell_text(ended.logs.bytes(), out);
    add_word(out, b"");
    for disk in &ended.disks {
        add(out, &[letter_of(alloc, disk)?]);
    }
    Ok(())
}

fn tell_with<H: Threads + Sync>(
    threads: &H,
    alloc: Global,
    asked: &[u8],
    broken: Broken,
    out: &mut Told,
) -> Result<(), NoMemory> {
    match run_over(threads, alloc, Asked::of(asked), broken, Vec::new(alloc))? {
        Some(ended) => {
            let told = tell_ended(alloc, &ended, out);
            drop(ended);
            told
        }
        None => {
            add_word(out, b"too many slots");
            Ok(())
        }
    }
}

/// `run WORDS!TABLE!SLOTS!CLIENT => STATUS TOLD LOG LETTERS`: a run, in which `^` stands for the end of a line.
pub(crate) fn tell_run<H: Threads + Sync>(
    threads: &H,
    alloc: Global,
    asked: &[u8],
    out: &mut Told,
) -> Result<(), NoMemory> {
    tell_with(threads, alloc, asked, UNBROKEN, out)
}

fn add_disks(disks: &[MemDisk], out: &mut Told) {
    for disk in disks {
        add_hex(out, disk.bytes());
    }
}

/// `bytes WORDS!TABLE!SLOTS!CLIENT => DIGITS DIGITS ..`: what the disks hold behind a run.
pub(crate) fn tell_bytes<H: Threads + Sync>(
    threads: &H,
    alloc: Global,
    asked: &[u8],
    out: &mut Told,
) -> Result<(), NoMemory> {
    if let Some(ended) = run_over(threads, alloc, Asked::of(asked), UNBROKEN, Vec::new(alloc))? {
        add_disks(&ended.disks, out);
        drop(ended);
    }
    Ok(())
}

fn part_of(word: &[u8], slot: u64) -> Part {
    match word {
        b"client" => Part::Client,
        b"idle" => Part::Idle,
        b"output" => Part::Output,
        b"log" => Part::Log,
        b"log-room" => Part::LogRoom,
        b"table" => Part::Table,
        b"disk" => Part::Disk(slot),
        b"onward" => Part::DiskOnward(slot),
        _ => Part::Nothing,
    }
}

/// What fails, by the first three words, and the rest.
pub(crate) fn broken_of(asked: &[u8]) -> (Broken, &[u8]) {
    let (part, rest) = cut_word(asked);
    let (slot, rest) = cut_word(rest);
    let (at, rest) = cut_word(rest);
    let broken = Broken {
        part: part_of(part, number_of(slot)),
        at: number_of(at),
    };
    (broken, rest)
}

/// `broken PART SLOT CALL WORDS!TABLE!SLOTS!CLIENT => ..`: the same as `run`, and the part fails at a call; of the parts `disk`
/// and `onward`, where all later calls fail, too, it is the disk of the slot. Of the part `log-room` the number says for how
/// many bytes there is room in the log.
pub(crate) fn tell_broken<H: Threads + Sync>(
    threads: &H,
    alloc: Global,
    asked: &[u8],
    out: &mut Told,
) -> Result<(), NoMemory> {
    let (broken, rest) = broken_of(asked);
    tell_with(threads, alloc, rest, broken, out)
}
