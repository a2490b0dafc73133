//! What is told of slots that are opened, read, set aside and released.

use crate::spool::disks::bytes_of;
use crate::spool::letters::{failing, tell_aside, tell_broken, tell_free};
use crate::spool::slots::tell_message;
use fw_memory::MemDisk;
use fw_types::{NoMemory, Octets};
use lines_of_rows::{Told, add_number, add_word, cut_word};
use slot_bytes::Message;
use spool_slots::{Aside, Broken, Full, Opened, ReadBack, SlotWhy, open};
use std::alloc::Global;

// A disk with these bytes that fails from a call on, counted behind those of `open`.
fn disk_of(alloc: Global, asked: &[u8]) -> Result<MemDisk, NoMemory> {
    let (digits, first) = cut_word(asked);
    let bytes = bytes_of(alloc, digits)?;
    Ok(MemDisk::new(alloc, Octets::of(bytes), failing(first)))
}

// Sets a full slot aside, or releases it.
fn mark_full(full: Full<MemDisk>, kind: &str, out: &mut Told) -> MemDisk {
    if kind == "release" {
        return match full.release() {
            Ok(free) => tell_free(free, out),
            Err(broken) => tell_broken(broken, out),
        };
    }
    match full.set_aside() {
        Ok(aside) => tell_aside(aside, out),
        Err(broken) => tell_broken(broken, out),
    }
}

fn release_aside(aside: Aside<MemDisk>, out: &mut Told) -> MemDisk {
    match aside.release() {
        Ok(free) => tell_free(free, out),
        Err(broken) => tell_broken(broken, out),
    }
}

fn mark_opened(opened: Opened<MemDisk>, kind: &str, out: &mut Told) -> MemDisk {
    match opened {
        Opened::Full(full) => mark_full(full, kind, out),
        Opened::Aside(aside) => release_aside(aside, out),
        Opened::Free(free) => tell_free(free, out),
    }
}

/// `set-aside DIGITS FIRST => aside 7`, `release DIGITS FIRST => free 7`, or `broken`: the slot is opened, and set aside
/// or released. The disk's calls are counted behind those of `open`, and fail from the call `FIRST` on.
pub(crate) fn marked(
    alloc: Global,
    kind: &str,
    asked: &[u8],
    out: &mut Told,
) -> Result<MemDisk, NoMemory> {
    match open(alloc, 7, disk_of(alloc, asked)?) {
        Ok(opened) => Ok(mark_opened(opened, kind, out)),
        Err((broken, SlotWhy::NoMemory)) => {
            drop(broken);
            Err(NoMemory)
        }
        Err((broken, _)) => Ok(tell_broken(broken, out)),
    }
}

pub(crate) fn tell_mark(
    alloc: Global,
    kind: &str,
    asked: &[u8],
    out: &mut Told,
) -> Result<(), NoMemory> {
    let disk = marked(alloc, kind, asked, out)?;
    drop(disk);
    Ok(())
}

fn tell_read(message: Message, out: &mut Told) {
    add_word(out, b"full");
    tell_message(&message, out);
    drop(message);
}

// Tells a slot whose disk failed.
fn end_broken(broken: Broken<MemDisk>, out: &mut Told) {
    drop(tell_broken(broken, out));
}

fn tell_full(alloc: Global, mut full: Full<MemDisk>, out: &mut Told) -> Result<(), NoMemory> {
    match full.message(alloc) {
        Ok(message) => {
            drop(full);
            tell_read(message, out);
            Ok(())
        }
        Err(ReadBack::DiskFault) => {
            end_broken(full.into_broken(), out);
            Ok(())
        }
        Err(ReadBack::NoMemory) => {
            drop(full);
            Err(NoMemory)
        }
    }
}

fn tell_why(broken: Broken<MemDisk>, why: SlotWhy, out: &mut Told) -> Result<(), NoMemory> {
    match why {
        SlotWhy::BadSlot { at } => {
            drop(broken);
            add_word(out, b"bad at");
            add_number(out, at);
            Ok(())
        }
        SlotWhy::DiskFault => {
            end_broken(broken, out);
            Ok(())
        }
        SlotWhy::NoMemory => {
            drop(broken);
            Err(NoMemory)
        }
    }
}

fn tell_opened(alloc: Global, opened: Opened<MemDisk>, out: &mut Told) -> Result<(), NoMemory> {
    match opened {
        Opened::Free(free) => {
            drop(free);
            add_word(out, b"free");
            Ok(())
        }
        Opened::Full(full) => tell_full(alloc, full, out),
        Opened::Aside(aside) => {
            drop(aside);
            add_word(out, b"aside");
            Ok(())
        }
    }
}

/// `open DIGITS FIRST => free`, `full MESSAGE`, `aside`, `bad at PLACE` or `broken`: what the bytes open as, with the
/// message read. The disk's calls are counted behind those of `open`, which makes three where a message stands.
pub(crate) fn tell_open(alloc: Global, asked: &[u8], out: &mut Told) -> Result<(), NoMemory> {
    match open(alloc, 7, disk_of(alloc, asked)?) {
        Ok(opened) => tell_opened(alloc, opened, out),
        Err((broken, why)) => tell_why(broken, why, out),
    }
}
