//! A run of `smap` or `smapd`.

use crate::mail::asked::{Asked, slot_of, text_with};
use crate::mail::breaking::{Broken, Part};
use crate::world::{self, Devices, Ended, no_server};
use fw_mail::Handed;
use fw_memory::{MemDisk, MemFiles, MemSink, MemSource};
use fw_types::NoMemory;
use std::alloc::Global;
use std::thread::Threads;

/// So many bytes come of the client at once.
const PIECE: usize = 7;

/// For so many bytes there is room at the client.
const ROOM: usize = 65_536;

// Both, where there is memory for each.
fn both<A: Drop, B: Drop>(
    first: Result<A, NoMemory>,
    second: Result<B, NoMemory>,
) -> Result<(A, B), NoMemory> {
    Ok((first?, second?))
}

fn disk_of(alloc: Global, word: &[u8], broken: Broken, number: u64) -> Result<MemDisk, NoMemory> {
    let (bytes, fails) = both(slot_of(alloc, word), broken.disk_calls(alloc, number))?;
    Ok(MemDisk::new(alloc, bytes, fails))
}

fn disks_of(alloc: Global, slots: &[u8], broken: Broken) -> Result<Vec<MemDisk>, NoMemory> {
    let mut disks = Vec::new(alloc);
    let mut number = 0u64;
    for word in slots.split(|byte| *byte == b',') {
        disks.push(disk_of(alloc, word, broken, number)?)?;
        number = number.saturating_add(1);
    }
    Ok(disks)
}

fn files_of(alloc: Global, asked: Asked, broken: Broken) -> Result<MemFiles, NoMemory> {
    let table = text_with(alloc, asked.table, b'|', b"\n")?;
    let fails = broken.calls(alloc, Part::Table)?;
    world::files_of(alloc, table, PIECE, fails)
}

fn input_of(alloc: Global, asked: Asked, broken: Broken) -> Result<MemSource, NoMemory> {
    let said = text_with(alloc, asked.client, b'^', b"\r\n")?;
    let (fails, idle) = both(
        broken.calls(alloc, Part::Client),
        broken.calls(alloc, Part::Idle),
    )?;
    Ok(MemSource::new(said, PIECE, fails, idle))
}

// A sink with so much room, which fails where this part does.
fn sink_of(alloc: Global, room: usize, broken: Broken, part: Part) -> Result<MemSink, NoMemory> {
    let fails = broken.calls(alloc, part)?;
    MemSink::new(alloc, room, fails)
}

fn devices_of(alloc: Global, asked: Asked, broken: Broken) -> Result<Devices, NoMemory> {
    let sources = both(
        files_of(alloc, asked, broken),
        input_of(alloc, asked, broken),
    );
    let sinks = both(
        sink_of(alloc, ROOM, broken, Part::Output),
        sink_of(alloc, broken.log_room(), broken, Part::Log),
    );
    let ((files, input), ((output, logs), dialer)) = both(sources, both(sinks, no_server(alloc)))?;
    Ok(Devices {
        files,
        input,
        output,
        logs,
        dialer,
    })
}

/// Runs what is asked for over these disks, with a mailer that gives these answers; nothing where there are too many disks.
pub(crate) fn run_on<H: Threads + Sync>(
    threads: &H,
    alloc: Global,
    asked: Asked,
    broken: Broken,
    disks: Vec<MemDisk>,
    answers: Vec<Handed>,
) -> Result<Option<Ended>, NoMemory> {
    let devices = devices_of(alloc, asked, broken)?;
    world::run_over(threads, alloc, asked.words, devices, disks, answers)
}

/// The same over disks with the slots that are asked for.
pub(crate) fn run_over<H: Threads + Sync>(
    threads: &H,
    alloc: Global,
    asked: Asked,
    broken: Broken,
    answers: Vec<Handed>,
) -> Result<Option<Ended>, NoMemory> {
    let disks = disks_of(alloc, asked.slots, broken)?;
    run_on(threads, alloc, asked, broken, disks, answers)
}
