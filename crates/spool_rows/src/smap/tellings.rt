//! What is told of a session.

use crate::smap::play::{Fails, Played, number_in_front, play};
use fw_memory::MemDisk;
use fw_types::{Ending, NoMemory};
use lines_of_rows::{Told, add, add_hex, add_word, cut_word, number_of};
use slot_bytes::{Slot, SlotFault, read_slot};
use std::alloc::Global;

// A text, with `^` for each CR LF and for each other LF.
fn add_text(out: &mut Told, text: &[u8]) {
    for byte in text {
        match byte {
            b'\r' => (),
            b'\n' => add(out, b"^"),
            other => add(out, &[*other]),
        }
    }
}

pub(crate) fn ending_name(ending: Ending) -> &'static [u8] {
    match ending {
        Ending::Done => b"Done",
        Ending::Denied { .. } => b"Denied",
        Ending::ClientFault => b"ClientFault",
        Ending::ServerFault => b"ServerFault",
        Ending::LogFault => b"LogFault",
        Ending::AuthFault => b"AuthFault",
        Ending::Idle => b"Idle",
        Ending::NoRoute => b"NoRoute",
        Ending::Spent => b"Spent",
        Ending::NoMemory => b"NoMemory",
    }
}

fn letter_in(slot: &Slot) -> u8 {
    match slot {
        Slot::Free => b'f',
        Slot::Whole(_) => b'w',
        Slot::Aside(_) => b'a',
    }
}

/// A letter for what a disk's bytes are read as: `f` free, `w` whole, `a` aside, `b` bad.
pub(crate) fn letter_of(alloc: Global, disk: &MemDisk) -> Result<u8, NoMemory> {
    match read_slot(alloc, disk.bytes()) {
        Ok(slot) => {
            let letter = letter_in(&slot);
            drop(slot);
            Ok(letter)
        }
        Err(SlotFault::Bad { at: _ }) => Ok(b'b'),
        Err(SlotFault::NoMemory) => Err(NoMemory),
    }
}

fn add_ending(alloc: Global, played: &Played, out: &mut Told) -> Result<(), NoMemory> {
    add_word(out, ending_name(played.ending));
    for disk in &played.disks {
        add_word(out, &[letter_of(alloc, disk)?]);
    }
    Ok(())
}

// The same, and what the client is told.
fn add_faults(alloc: Global, played: &Played, out: &mut Told) -> Result<(), NoMemory> {
    add_ending(alloc, played, out)?;
    add_word(out, b"");
    add_text(out, played.to.bytes());
    Ok(())
}

/// `replies SLOTS BYTES RCPTS CLIENT => TEXT`: what the client is told.
pub(crate) fn tell_replies(alloc: Global, asked: &[u8], out: &mut Told) -> Result<(), NoMemory> {
    match play(alloc, asked, Fails::none())? {
        Some(played) => {
            add_text(out, played.to.bytes());
            drop(played);
        }
        None => add(out, b"no rack"),
    }
    Ok(())
}

/// `log SLOTS BYTES RCPTS CLIENT => TEXT`: what the log is given.
pub(crate) fn tell_log(alloc: Global, asked: &[u8], out: &mut Told) -> Result<(), NoMemory> {
    match play(alloc, asked, Fails::none())? {
        Some(played) => {
            add_text(out, played.log.bytes());
            drop(played);
        }
        None => add(out, b"no rack"),
    }
    Ok(())
}

/// `after SLOTS BYTES RCPTS CLIENT => ENDING LETTERS`: how the session ends, and what the slots hold then.
pub(crate) fn tell_after(alloc: Global, asked: &[u8], out: &mut Told) -> Result<(), NoMemory> {
    match play(alloc, asked, Fails::none())? {
        Some(played) => {
            let added = add_ending(alloc, &played, out);
            drop(played);
            added
        }
        None => {
            add(out, b"no rack");
            Ok(())
        }
    }
}

fn add_disk_at(disks: &[MemDisk], number: u64, out: &mut Told) {
    let mut at = 0u64;
    for disk in disks {
        if at == number {
            add_hex(out, disk.bytes());
        }
        at = at.saturating_add(1);
    }
}

/// `bytes SLOT SLOTS BYTES RCPTS CLIENT => DIGITS`: the bytes of the slot with this number then.
pub(crate) fn tell_bytes(alloc: Global, asked: &[u8], out: &mut Told) -> Result<(), NoMemory> {
    let (number, asked) = number_in_front(asked);
    match play(alloc, asked, Fails::none())? {
        Some(played) => {
            add_disk_at(&played.disks, number, out);
            drop(played);
        }
        None => add(out, b"no rack"),
    }
    Ok(())
}

/// The calls of one device that fail, from this one on; `disk` is that of slot 0, after its opening.
pub(crate) fn fails_of(device: &[u8], first: u64) -> Fails {
    let mut fails = Fails::none();
    match device {
        b"disk" => fails.disk = Some((0, first)),
        b"client" => fails.source = Some(first),
        b"output" => fails.sink = Some(first),
        b"log" => fails.log = Some(first),
        _ => (),
    }
    fails
}

/// `faults DEVICE CALL SLOTS BYTES RCPTS CLIENT => ENDING LETTERS TEXT`: the same, and what the client is told, where `client`,
/// `output`, `log` or `disk` fails from this call on.
pub(crate) fn tell_faults(alloc: Global, asked: &[u8], out: &mut Told) -> Result<(), NoMemory> {
    let (device, rest) = cut_word(asked);
    let (first, asked) = cut_word(rest);
    match play(alloc, asked, fails_of(device, number_of(first)))? {
        Some(played) => {
            let added = add_faults(alloc, &played, out);
            drop(played);
            added
        }
        None => {
            add(out, b"no rack");
            Ok(())
        }
    }
}
