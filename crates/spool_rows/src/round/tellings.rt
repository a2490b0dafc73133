//! What is told of a round.

use crate::round::asked::Fails;
use crate::round::play::{Played, play};
use fw_memory::MemDisk;
use fw_types::NoMemory;
use lines_of_rows::{Told, add, add_number, add_word};
use slot_bytes::{Slot, SlotFault, read_slot};
use smapd_queue::{Round, RoundFault, Trouble};
use std::alloc::Global;

// A text, with `^` for each LF.
fn add_text(out: &mut Told, text: &[u8]) {
    for byte in text {
        match byte {
            b'\n' => add(out, b"^"),
            other => add(out, &[*other]),
        }
    }
}

fn letter_in(slot: &Slot) -> u8 {
    match slot {
        Slot::Free => b'f',
        Slot::Whole(_) => b'w',
        Slot::Aside(_) => b'a',
    }
}

/// A letter for what a disk's bytes are read as: `f` free, `w` whole, `a` aside, `b` bad.
pub(crate) fn letter_of(alloc: Global, disk: &MemDisk) -> Result<u8, NoMemory> {
    match read_slot(alloc, disk.bytes()) {
        Ok(slot) => {
            let letter = letter_in(&slot);
            drop(slot);
            Ok(letter)
        }
        Err(SlotFault::Bad { at: _ }) => Ok(b'b'),
        Err(SlotFault::NoMemory) => Err(NoMemory),
    }
}

fn add_numbers(round: Round, out: &mut Told) {
    for number in [round.accepted, round.refused, round.failed, round.broken] {
        add_number(out, u64::from(number));
    }
}

fn add_answer(answer: Result<Round, RoundFault>, out: &mut Told) {
    match answer {
        Ok(round) => {
            add_word(out, b"ok");
            add_numbers(round, out);
        }
        Err(RoundFault::LogFault(round)) => {
            add_word(out, b"log");
            add_numbers(round, out);
        }
        Err(RoundFault::NoMemory(round)) => {
            add_word(out, b"memory");
            add_numbers(round, out);
        }
    }
}

fn add_trouble(trouble: Option<Trouble>, out: &mut Told) {
    match trouble {
        None => (),
        Some(Trouble::Mailer) => add_word(out, b"mailer"),
        Some(Trouble::Disk(number)) => {
            add_word(out, b"disk");
            add_number(out, u64::from(number));
        }
    }
}

fn add_disks(alloc: Global, disks: &[MemDisk], out: &mut Told) -> Result<(), NoMemory> {
    add_word(out, b"");
    for disk in disks {
        add(out, &[letter_of(alloc, disk)?]);
    }
    Ok(())
}

fn add_round(alloc: Global, played: &Played, out: &mut Told) -> Result<(), NoMemory> {
    add_answer(played.rounded.answer, out);
    add_disks(alloc, &played.disks, out)?;
    add_trouble(played.rounded.trouble, out);
    Ok(())
}

/// The answer, what the slots hold, and which device failed first.
pub(crate) fn add_played(alloc: Global, played: Played, out: &mut Told) -> Result<(), NoMemory> {
    let added = add_round(alloc, &played, out);
    drop(played);
    added
}

/// `round SLOTS ANSWERS TURNS => ANSWER ACCEPTED REFUSED FAILED BROKEN LETTERS TROUBLE`: what is answered (`ok`, `log` or
/// `memory`), what the slots hold then, and the device that failed first, `mailer` or `disk N`, if one did.
pub(crate) fn tell_round(alloc: Global, asked: &[u8], out: &mut Told) -> Result<(), NoMemory> {
    match play(alloc, asked, Fails::none())? {
        Some(played) => add_played(alloc, played, out),
        None => {
            add(out, b"no rack");
            Ok(())
        }
    }
}

/// `log SLOTS ANSWERS TURNS => TEXT`: what the log is given.
pub(crate) fn tell_log(alloc: Global, asked: &[u8], out: &mut Told) -> Result<(), NoMemory> {
    match play(alloc, asked, Fails::none())? {
        Some(played) => {
            add_text(out, played.log.bytes());
            drop(played);
        }
        None => add(out, b"no rack"),
    }
    Ok(())
}

/// `accepted SLOTS ANSWERS TURNS => MESSAGES`: what the mailer accepted, each message as `FROM:RCPT:BODY;`.
pub(crate) fn tell_accepted(alloc: Global, asked: &[u8], out: &mut Told) -> Result<(), NoMemory> {
    match play(alloc, asked, Fails::none())? {
        Some(played) => {
            add(out, &played.shown);
            drop(played);
        }
        None => add(out, b"no rack"),
    }
    Ok(())
}
