//! What is told of disks in memory.

use fw_disk::{Disk, Failed};
use fw_memory::{Calls, MemDisk};
use fw_types::{NoMemory, Octets};
use lines_of_rows::{
    Told, add_hex, add_number, add_word, cut, cut_word, from_hex, number_of, numbers_of,
};
use std::alloc::Global;
use std::str;

/// The bytes of pairs of hexadecimal digits.
pub(crate) fn bytes_of(alloc: Global, digits: &[u8]) -> Result<Vec<u8>, NoMemory> {
    from_hex(alloc, str::from_utf8(digits).unwrap_or(""))
}

/// Call numbers between commas, `-` for none, or `N+` for N and all later.
pub(crate) fn calls_of(alloc: Global, text: &[u8]) -> Result<Calls, NoMemory> {
    match text {
        [first @ .., b'+'] => Ok(Calls::onward(number_of(first))),
        _ => Calls::of(alloc, &numbers_of(alloc, text)?),
    }
}

fn tell_call(answer: Result<(), Failed>, out: &mut Told) {
    match answer {
        Ok(()) => add_word(out, b"ok"),
        Err(Failed) => add_word(out, b"failed"),
    }
}

// Writes at a place that the disk has, or beyond its end not at all.
fn write(disk: &mut MemDisk, at: u64, bytes: &[u8], out: &mut Told) {
    if at <= disk.bytes().len() as u64 {
        tell_call(disk.write_at(at, bytes), out);
    }
}

// Writes `PLACE:DIGITS`.
fn write_digits(
    alloc: Global,
    disk: &mut MemDisk,
    text: &[u8],
    out: &mut Told,
) -> Result<(), NoMemory> {
    let (at, digits) = cut(text, b':');
    let bytes = bytes_of(alloc, digits)?;
    write(disk, number_of(at), &bytes, out);
    Ok(())
}

fn sync(disk: &mut MemDisk, out: &mut Told) {
    tell_call(disk.sync(), out);
}

fn cut_at(disk: &mut MemDisk, len: u64, out: &mut Told) {
    if len <= disk.bytes().len() as u64 {
        tell_call(disk.cut(len), out);
    }
}

fn read(disk: &mut MemDisk, at: u64, out: &mut Told) {
    let mut buf = [0; 4];
    match disk.read(at, &mut buf) {
        Ok(count) => {
            add_number(out, count as u64);
            add_hex(out, &buf);
        }
        Err(Failed) => add_word(out, b"failed"),
    }
}

// One step: `wPLACE:DIGITS`, `cLENGTH`, `s` for a sync, `rPLACE` for a read into four bytes of 0.
fn step(alloc: Global, disk: &mut MemDisk, step: &[u8], out: &mut Told) -> Result<(), NoMemory> {
    match step {
        [b'w', rest @ ..] => return write_digits(alloc, disk, rest, out),
        [b'c', rest @ ..] => cut_at(disk, number_of(rest), out),
        [b's'] => sync(disk, out),
        [b'r', rest @ ..] => read(disk, number_of(rest), out),
        _ => add_word(out, b"no such step"),
    }
    Ok(())
}

// Does the steps, whose answers are told.
fn do_steps(
    alloc: Global,
    disk: &mut MemDisk,
    steps: &[u8],
    out: &mut Told,
) -> Result<(), NoMemory> {
    for word in steps.split(|byte| *byte == b' ') {
        step(alloc, disk, word, out)?;
    }
    Ok(())
}

/// The disk of `DIGITS. FAILS`.
pub(crate) fn disk_of(alloc: Global, digits: &[u8], fails: &[u8]) -> Result<MemDisk, NoMemory> {
    let bytes = bytes_of(alloc, cut(digits, b'.').0)?;
    let fails = calls_of(alloc, fails)?;
    Ok(MemDisk::new(alloc, Octets::of(bytes), fails))
}

// The disk after the steps, whose answers are told.
fn disk_after(alloc: Global, asked: &[u8], out: &mut Told) -> Result<MemDisk, NoMemory> {
    let (digits, rest) = cut_word(asked);
    let (fails, steps) = cut_word(rest);
    let mut disk = disk_of(alloc, digits, fails)?;
    match do_steps(alloc, &mut disk, steps, out) {
        Ok(()) => Ok(disk),
        Err(NoMemory) => {
            drop(disk);
            Err(NoMemory)
        }
    }
}

/// `disk DIGITS. FAILS STEP STEP ... => ANSWERS DIGITS`: the answers of the steps, and the bytes as read.
pub(crate) fn tell_disk(alloc: Global, asked: &[u8], out: &mut Told) -> Result<(), NoMemory> {
    let disk = disk_after(alloc, asked, out)?;
    add_hex(out, disk.bytes());
    drop(disk);
    Ok(())
}

/// `crash PICK DIGITS. FAILS STEP STEP ... => DIGITS`: the image that the number picks after the steps.
pub(crate) fn tell_crash(alloc: Global, asked: &[u8], out: &mut Told) -> Result<(), NoMemory> {
    let (pick, rest) = cut_word(asked);
    let disk = disk_after(alloc, rest, &mut Told::new())?;
    let image = disk.crash(number_of(pick))?;
    add_hex(out, image.bytes());
    drop(image);
    Ok(())
}
