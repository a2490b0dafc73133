//! A server that is made ready over devices in memory.
ghost use Rattle.std.specs.Prelude.{◌≤◌, length};

use crate::world::{Devices, Memory, files_of, no_server, nobody, words_of};
use bastion::World;
use bastion_ready::{Door, Ready, ready};
use fw_memory::{Calls, MemClock, MemDice, MemDisk, MemKeeper, MemLauncher, MemSink};
use fw_types::{Name, NoMemory, Octets};
use gate_rules::{Rules, Service};
use lines_of_rows::from_hex;
use std::alloc::Global;
use std::str;

/// What a server begins with, and the disks of its slots.
#[derive(Drop)]
pub(crate) struct Server {
    pub(crate) doors: Vec<Door>,
    pub(crate) rules: Vec<(Service, Rules)>,
    pub(crate) slots: Vec<MemDisk>,
}

/// What came of it, what was logged, whether the keeper is in the world, and the disks that are.
#[derive(Drop)]
pub(crate) struct Came {
    pub(crate) server: Result<Server, u8>,
    pub(crate) logs: MemSink,
    pub(crate) kept: bool,
    pub(crate) disks: Vec<MemDisk>,
}

fn server_of(ready: Ready<MemKeeper, MemDisk>) -> Server {
    let Ready {
        doors,
        rules,
        book: _,
        rack,
    } = ready;
    Server {
        doors,
        rules,
        slots: rack.close(),
    }
}

// What stands still: nobody speaks, and the output has no room.
fn still_with(alloc: Global, table: &[u8], logs: MemSink) -> Result<Devices, NoMemory> {
    let table = Octets::copy(alloc, table)?;
    Ok(Devices {
        files: files_of(alloc, table, 64, Calls::none())?,
        input: nobody(alloc)?,
        output: MemSink::new(alloc, 0, Calls::none())?,
        logs,
        dialer: no_server(alloc)?,
    })
}

// The one call of `ready`: what came of it, and what it left in the world.
fn ready_in(
    alloc: Global,
    words: &[Octets],
    devices: Devices,
    keeper: MemKeeper,
    disks: Vec<MemDisk>,
) -> (Result<Server, u8>, World<Memory>)
    requires few { length disks.items ≤ 64 }
{
    let Devices {
        files,
        input,
        output,
        logs,
        dialer,
    } = devices;
    let mut world: World<Memory> = World {
        files,
        input,
        output,
        logs,
        clock: MemClock::new(Vec::new(alloc)),
        dice: MemDice::new(0),
        keeper: Some(keeper),
        dialer,
        launcher: MemLauncher::new(alloc, Vec::new(alloc), Calls::none()),
        disks,
        remote: None,
    };
    let server = match ready(alloc, words, &mut world) {
        Ok(ready) => Ok(server_of(ready)),
        Err(status) => Err(status),
    };
    (server, world)
}

// What is told of a world in which that came.
fn came_of(server: Result<Server, u8>, world: World<Memory>) -> Came {
    let World {
        files,
        input,
        output,
        logs,
        clock,
        dice: _,
        keeper,
        dialer,
        launcher,
        disks,
        remote: _,
    } = world;
    drop(files);
    drop(input);
    drop(output);
    drop(clock);
    drop(dialer);
    drop(launcher);
    Came {
        server,
        logs,
        kept: keeper.is_some(),
        disks,
    }
}

/// What the words come to over this table, keeper, log and disks, of which there are at most 64.
pub(crate) fn ready_over(
    alloc: Global,
    line: &[u8],
    table: &[u8],
    keeper: MemKeeper,
    logs: MemSink,
    disks: Vec<MemDisk>,
) -> Result<Came, NoMemory> {
    if disks.len() > 64 {
        return Err(NoMemory);
    }
    let words = words_of(alloc, line)?;
    let devices = still_with(alloc, table, logs)?;
    let (server, world) = ready_in(alloc, &words, devices, keeper, disks);
    Ok(came_of(server, world))
}

/// A keeper of this record, whose calls of these numbers fail.
pub(crate) fn keeper_of(
    alloc: Global,
    name: &[u8],
    bytes: Vec<u8>,
    fails: Calls,
) -> Result<MemKeeper, NoMemory> {
    let mut records = Vec::new(alloc);
    if let Some(name) = Name::read(name) {
        records.push((name, Octets::of(bytes)))?;
    }
    Ok(MemKeeper::new(alloc, records, fails))
}

// Of this number, the disk that fails at each call.
fn calls_for(number: u64, broken: Option<u64>) -> Calls {
    match broken {
        Some(one) if one == number => Calls::onward(0),
        _ => Calls::none(),
    }
}

/// Disks with these bytes, of which the one with the number that is broken fails. `-` is none.
pub(crate) fn disks_of(
    alloc: Global,
    slots: &[u8],
    broken: Option<u64>,
) -> Result<Vec<MemDisk>, NoMemory> {
    let mut disks = Vec::new(alloc);
    if slots == b"-".as_slice() {
        return Ok(disks);
    }
    let mut number = 0u64;
    for digits in slots.split(|byte| *byte == b',') {
        let bytes = Octets::of(from_hex(alloc, str::from_utf8(digits).unwrap_or(""))?);
        disks.push(MemDisk::new(alloc, bytes, calls_for(number, broken)))?;
        number = number.saturating_add(1);
    }
    Ok(disks)
}
