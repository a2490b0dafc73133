//! Files as disks.

use crate::halting::{Halting, InMemory};
use crate::system::System;
use crate::telling::{tell_bytes, tell_done, tell_unknown};
use fw_disk::Disk;
use fw_real::{FileDisk, Place, RawFile, SlotFile};
use lines_of_rows::{Told, add_word, cut_word, number_of};
use std::fs::File;
use std::mem::replace;

type SlotDisk = FileDisk<SlotFile, File>;

fn slot(rt: HostRuntime, folder: &[u8], number: u32) -> Option<SlotDisk> {
    match SlotFile::new(rt, folder, number) {
        Ok(slot) => Some(FileDisk::new(slot)),
        Err(_) => None,
    }
}

fn made_slot(rt: HostRuntime, folder: &[u8], number: u32) -> Option<SlotDisk> {
    match SlotFile::made(rt, folder, number) {
        Ok(slot) => Some(FileDisk::new(slot)),
        Err(_) => None,
    }
}

fn read<P: Place<F>, F: RawFile>(disk: &mut FileDisk<P, F>, at: u64, out: &mut Told) {
    let mut buf = [0; 6];
    match disk.read(at, &mut buf) {
        Ok(count) => tell_bytes(buf.get(..count).unwrap_or(&[]), out),
        Err(_) => add_word(out, b"failed"),
    }
}

fn write<P: Place<F>, F: RawFile>(disk: &mut FileDisk<P, F>, rest: &[u8], out: &mut Told) {
    let (at, text) = cut_word(rest);
    tell_done(disk.write_at(number_of(at), text).is_ok(), out);
}

// `read PLACE`, into six bytes, `write PLACE TEXT`, `cut LENGTH` or `sync`.
fn disk_step<P: Place<F>, F: RawFile>(
    disk: &mut FileDisk<P, F>,
    word: &[u8],
    rest: &[u8],
    out: &mut Told,
) {
    match word {
        b"read" => read(disk, number_of(rest), out),
        b"write" => write(disk, rest, out),
        b"cut" => tell_done(disk.cut(number_of(rest)).is_ok(), out),
        b"sync" => tell_done(disk.sync().is_ok(), out),
        _ => tell_unknown(out),
    }
}

// The disks `a`, `b` and `c`.
#[derive(Drop)]
struct Disks {
    rt: HostRuntime,
    system: System,
    a: Option<SlotDisk>,
    b: Option<SlotDisk>,
    c: Option<SlotDisk>,
}

impl Disks {
    fn set(&mut self, name: &[u8], disk: Option<SlotDisk>) {
        let place = match name {
            b"a" => &mut self.a,
            b"b" => &mut self.b,
            _ => &mut self.c,
        };
        drop(replace(place, disk));
    }

    // The disk of a slot, whose file is made or isn't.
    fn begin(&mut self, word: &[u8], name: &[u8], rest: &[u8]) {
        let (folder, number) = cut_word(rest);
        let number = u32::try_from(number_of(number)).unwrap_or(0);
        let disk = match word {
            b"make" => made_slot(self.rt, folder, number),
            _ => slot(self.rt, folder, number),
        };
        self.set(name, disk);
    }

    fn use_disk(&mut self, word: &[u8], name: &[u8], rest: &[u8], out: &mut Told) {
        let disk = match name {
            b"a" => &mut self.a,
            b"b" => &mut self.b,
            _ => &mut self.c,
        };
        match disk {
            Some(disk) => disk_step(disk, word, rest, out),
            None => add_word(out, b"no disk"),
        }
    }

    // `WORD NAME REST`, or a step with a file: `files WORD REST`.
    fn step(&mut self, step: &[u8], out: &mut Told) {
        let (word, behind) = cut_word(step);
        let (name, rest) = cut_word(behind);
        match word {
            b"make" | b"have" => self.begin(word, name, rest),
            b"drop" => self.set(name, None),
            b"files" => self.system.step(name, rest, out),
            _ => self.use_disk(word, name, rest, out),
        }
    }
}

/// `disks STEP|STEP|.. => ANSWERS`.
pub(crate) fn tell_disks(rt: HostRuntime, asked: &[u8], out: &mut Told) {
    let mut disks = Disks {
        rt,
        system: System::new(rt),
        a: None,
        b: None,
        c: None,
    };
    for step in asked.split(|byte| *byte == b'|') {
        disks.step(step, out);
    }
    drop(disks);
}

/// `halting STEP|STEP|.. => ANSWERS`: a disk over a file that does little at a time.
pub(crate) fn tell_halting(asked: &[u8], out: &mut Told) {
    let mut disk: FileDisk<InMemory, Halting> = FileDisk::new(InMemory);
    for step in asked.split(|byte| *byte == b'|') {
        let (word, rest) = cut_word(step);
        disk_step(&mut disk, word, rest, out);
    }
}
