//! What a slot holds.

use crate::killed::SlotDisk;
use crate::killed::writing::{body_byte, body_len};
use fw_real::{FileDisk, SlotFile};
use fw_types::Message;
use spool_slots::{Full, Opened, ReadBack, SlotWhy, open};
use std::alloc::{AllocError, Global};
use std::io::{self, ErrorKind};

// The number of the message, if it is one of ours and whole.
fn number_of(message: &Message) -> Option<u64> {
    let [a, b, c, d, e, f, g, h, rest @ ..] = message.body.bytes() else {
        return None;
    };
    let number = u64::from_be_bytes([*a, *b, *c, *d, *e, *f, *g, *h]);
    let byte = body_byte(number);
    if rest.len() != body_len(number) as usize || rest.iter().any(|other| *other != byte) {
        return None;
    }
    Some(number)
}

// A line of this slot.
fn line(alloc: Global, slot: u32, what: &str) -> Result<String, AllocError> {
    format!(in alloc; "{slot} {what}\n")
}

// The same, with a number at its end.
fn numbered(alloc: Global, slot: u32, what: &str, number: u64) -> Result<String, AllocError> {
    format!(in alloc; "{slot} {what} {number}\n")
}

fn tell_message(alloc: Global, slot: u32, message: &Message) -> Result<String, AllocError> {
    match number_of(message) {
        Some(number) => numbered(alloc, slot, "whole", number),
        None => line(alloc, slot, "torn"),
    }
}

// Reads the message, as whoever hands it on does.
fn tell_full(alloc: Global, slot: u32, full: Full<SlotDisk>) -> Result<String, AllocError> {
    let mut full = full;
    match full.message(alloc) {
        Ok(message) => tell_message(alloc, slot, &message),
        Err(ReadBack::DiskFault) => line(alloc, slot, "unread"),
        Err(ReadBack::NoMemory) => line(alloc, slot, "no memory"),
    }
}

// The disk of this slot, whose file isn't made.
fn disk_of(rt: HostRuntime, folder: &str, slot: u32) -> io::Result<SlotDisk> {
    match SlotFile::new(rt, folder.as_bytes(), slot) {
        Ok(file) => Ok(FileDisk::new(file)),
        Err(_) => Err(io::Error::from(ErrorKind::OutOfMemory)),
    }
}

fn tell_opened(alloc: Global, slot: u32, opened: Opened<SlotDisk>) -> Result<String, AllocError> {
    match opened {
        Opened::Free(_free) => line(alloc, slot, "free"),
        Opened::Full(full) => tell_full(alloc, slot, full),
        Opened::Aside(_aside) => line(alloc, slot, "aside"),
    }
}

fn tell_why(alloc: Global, slot: u32, why: SlotWhy) -> Result<String, AllocError> {
    match why {
        SlotWhy::BadSlot { at } => numbered(alloc, slot, "bad", at),
        SlotWhy::DiskFault => line(alloc, slot, "fault"),
        SlotWhy::NoMemory => line(alloc, slot, "no memory"),
    }
}

/// A line that tells what this slot opens as, with the number of its message.
pub fn tell_slot(rt: HostRuntime, folder: &str, slot: u32) -> io::Result<String> {
    let alloc = rt.alloc();
    let told = match open(alloc, slot, disk_of(rt, folder, slot)?) {
        Ok(opened) => tell_opened(alloc, slot, opened),
        Err((_broken, why)) => tell_why(alloc, slot, why),
    };
    Ok(told?)
}
