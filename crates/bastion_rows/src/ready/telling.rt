//! What is told of a server that is made ready.

use crate::ready::readying::{Came, Server, disks_of, keeper_of, ready_over};
use arrayvec::ArrayVec;
use fw_memory::{Calls, MemDisk, MemKeeper, MemSink};
use fw_types::NoMemory;
use gate_rules::Service;
use lines_of_rows::{Told, add, add_hex, add_number, add_word, cut, cut_word, from_hex, number_of};
use std::alloc::Global;
use std::str;

fn tell_service(service: &Service, out: &mut Told) {
    let mut name = ArrayVec::new();
    service.write(&mut name);
    add_word(out, name.as_slice());
}

fn tell_door(service: &Service, port: u16, out: &mut Told) {
    let mut digits = Told::new();
    add_number(&mut digits, u64::from(port));
    tell_service(service, out);
    add(out, b"@");
    add(out, digits.as_slice());
}

// The first two bytes of each disk, behind a word for where they are.
fn tell_disks(place: &[u8], disks: &[MemDisk], out: &mut Told) {
    if disks.is_empty() {
        return;
    }
    add_word(out, place);
    for disk in disks {
        let bytes = disk.bytes();
        add_hex(out, &bytes[..bytes.len().min(2)]);
    }
}

// The doors, then the services that have rules, and then the slots.
fn tell_server(server: &Server, out: &mut Told) {
    for (service, port) in server.doors.as_slice() {
        tell_door(service, *port, out);
    }
    add_word(out, b"rules");
    for (service, _) in server.rules.as_slice() {
        tell_service(service, out);
    }
    tell_disks(b"slots", server.slots.as_slice(), out);
}

fn tell_came(came: &Came, out: &mut Told) {
    match &came.server {
        Ok(server) => tell_server(server, out),
        Err(status) => {
            add_number(out, u64::from(*status));
            add_word(out, came.logs.bytes());
        }
    }
    if came.kept {
        add_word(out, b"kept");
    }
    tell_disks(b"disks", came.disks.as_slice(), out);
}

fn tell_over(
    alloc: Global,
    words: &[u8],
    table: &[u8],
    keeper: MemKeeper,
    disks: Vec<MemDisk>,
    out: &mut Told,
) -> Result<(), NoMemory> {
    let logs = MemSink::new(alloc, 1024, Calls::none())?;
    tell_came(&ready_over(alloc, words, table, keeper, logs, disks)?, out);
    Ok(())
}

fn tell_with(
    alloc: Global,
    words: &[u8],
    table: &[u8],
    keeper: MemKeeper,
    out: &mut Told,
) -> Result<(), NoMemory> {
    tell_over(alloc, words, table, keeper, Vec::new(alloc), out)
}

fn no_records(alloc: Global, fails: Calls) -> MemKeeper {
    MemKeeper::new(alloc, Vec::new(alloc), fails)
}

/// `ready WORDS => DOOR .. rules SERVICE ..` or `=> STATUS LOG kept`: over an empty table and no records. `kept` says that the
/// keeper is in the world.
pub(crate) fn tell_words(alloc: Global, asked: &[u8], out: &mut Told) -> Result<(), NoMemory> {
    tell_with(alloc, asked, b"", no_records(alloc, Calls::none()), out)
}

/// `table TEXT|WORDS => ..`: the same over this table.
pub(crate) fn tell_table(alloc: Global, asked: &[u8], out: &mut Told) -> Result<(), NoMemory> {
    let (table, words) = cut(asked, b'|');
    tell_with(alloc, words, table, no_records(alloc, Calls::none()), out)
}

/// `record NAME DIGITS WORDS => ..`: over an empty table and one record.
pub(crate) fn tell_record(alloc: Global, asked: &[u8], out: &mut Told) -> Result<(), NoMemory> {
    let (name, more) = cut_word(asked);
    let (digits, words) = cut_word(more);
    let bytes = from_hex(alloc, str::from_utf8(digits).unwrap_or(""))?;
    let keeper = keeper_of(alloc, name, bytes, Calls::none())?;
    tell_with(alloc, words, b"", keeper, out)
}

/// `lost WORDS => ..`: over an empty table and a keeper that fails.
pub(crate) fn tell_lost(alloc: Global, asked: &[u8], out: &mut Told) -> Result<(), NoMemory> {
    tell_with(alloc, asked, b"", no_records(alloc, Calls::onward(0)), out)
}

/// `deaf WORDS => ..`: over an empty table and no records, and the log fails.
pub(crate) fn tell_deaf(alloc: Global, asked: &[u8], out: &mut Told) -> Result<(), NoMemory> {
    let logs = MemSink::new(alloc, 0, Calls::onward(0))?;
    let keeper = no_records(alloc, Calls::none());
    tell_came(
        &ready_over(alloc, asked, b"", keeper, logs, Vec::new(alloc))?,
        out,
    );
    Ok(())
}

/// `slots SLOT,SLOT.. WORDS => .. slots SLOT ..` or `=> STATUS LOG kept disks SLOT ..`: over an empty table, no records, and disks
/// with these bytes in hexadecimal digits. Of each disk its first two bytes are told, behind `slots` where it is in the rack, and
/// behind `disks` where it is in the world.
pub(crate) fn tell_slots(alloc: Global, asked: &[u8], out: &mut Told) -> Result<(), NoMemory> {
    let (slots, words) = cut_word(asked);
    let disks = disks_of(alloc, slots, None)?;
    let keeper = no_records(alloc, Calls::none());
    tell_over(alloc, words, b"", keeper, disks, out)
}

/// `broken N SLOT,SLOT.. WORDS => ..`: the same, and each call of the disk with number N fails.
pub(crate) fn tell_broken(alloc: Global, asked: &[u8], out: &mut Told) -> Result<(), NoMemory> {
    let (number, more) = cut_word(asked);
    let (slots, words) = cut_word(more);
    let disks = disks_of(alloc, slots, Some(number_of(number)))?;
    let keeper = no_records(alloc, Calls::none());
    tell_over(alloc, words, b"", keeper, disks, out)
}

/// `unkept SLOT,SLOT.. WORDS => ..`: the same over a keeper that fails, and disks that don't.
pub(crate) fn tell_unkept(alloc: Global, asked: &[u8], out: &mut Told) -> Result<(), NoMemory> {
    let (slots, words) = cut_word(asked);
    let disks = disks_of(alloc, slots, None)?;
    let keeper = no_records(alloc, Calls::onward(0));
    tell_over(alloc, words, b"", keeper, disks, out)
}
