//! What the devices show after a run.

use crate::devices::Helpers;
use crate::writing::{Text, add, add_hex, add_number};
use arrayvec::ArrayVec;
use fw_memory::{MemDialer, MemKeeper, MemLauncher, MemSource};
use fw_outside::{Ask, Got, Source};
use fw_types::{Host, Name, Octets, OctetsList};

/// More calls than it takes to hear a client to its end.
const MOST_TAKES: u32 = 8192;

/// Adds the bytes that a source would still give.
pub(crate) fn add_left(out: &mut Text, input: &mut MemSource) {
    let mut buffer = [0u8; 1024];
    for _ in 0..MOST_TAKES {
        match input.take(&mut buffer) {
            Ok(Got::Bytes(count)) => add(out, buffer.get(..count).unwrap_or(&[])),
            Ok(Got::End) => break,
            _ => {}
        }
    }
}

/// The records that are kept: none where there is no keeper.
pub(crate) fn table_of(keeper: &Option<MemKeeper>) -> &[(Name, Octets)] {
    match keeper {
        Some(keeper) => keeper.table(),
        None => &[],
    }
}

/// Adds a name and the bytes of its record, for each of the records.
pub(crate) fn add_records(out: &mut Text, records: &[(Name, Octets)]) {
    for (name, bytes) in records {
        add(out, name.text());
        add(out, b" ");
        add_hex(out, bytes.bytes());
        add(out, b"\n");
    }
}

fn add_program(out: &mut Text, program: &Octets, args: &OctetsList) {
    add(out, program.bytes());
    for arg in args.as_slice() {
        add(out, b" ");
        add(out, arg.bytes());
    }
    add(out, b"\n");
}

/// Adds the programs that were started, each with its arguments in a line.
pub(crate) fn add_started(out: &mut Text, launcher: &MemLauncher) {
    for (program, args, _) in launcher.started() {
        add_program(out, program, args);
    }
}

fn add_dest(out: &mut Text, host: &Host, port: u16) {
    let mut text = ArrayVec::new();
    host.write(&mut text);
    add(out, text.as_slice());
    add(out, b" ");
    add_number(out, u64::from(port));
    add(out, b"\n");
}

fn add_place(out: &mut Text, word: &[u8], host: &Host, port: u16) {
    add(out, word);
    add_dest(out, host, port);
}

fn add_addr(out: &mut Text, word: &[u8], addr: &[u8; 4], port: u16) {
    let octets = *addr;
    let host = Host::Addr(octets);
    add_place(out, word, &host, port);
}

fn add_door(out: &mut Text, place: &([u8; 4], u16)) {
    let addr = place.0;
    add_addr(out, b"door ", &addr, place.1);
}

fn add_ask(out: &mut Text, ask: &Ask) {
    match ask {
        Ask::Main(dest) => add_dest(out, &dest.host, dest.port),
        Ask::Side(dest) => add_place(out, b"side ", &dest.host, dest.port),
        Ask::Back { addr, port } => add_addr(out, b"back ", addr, *port),
        Ask::Door { at: Some(place) } => add_door(out, place),
        Ask::Door { at: None } => add(out, b"door none\n"),
    }
}

/// Adds what the dialer was asked for, each in a line: the destinations of main links, and the data links and doors behind a
/// word.
pub(crate) fn add_asked(out: &mut Text, dialer: &MemDialer) {
    for ask in dialer.asked() {
        add_ask(out, ask);
    }
}

/// Adds what the servers were given whose links were hung up, one behind the other.
pub(crate) fn add_given(out: &mut Text, dialer: &MemDialer) {
    for (_, to) in dialer.ended() {
        add(out, to.bytes());
    }
}

/// What an authentication server elsewhere was given.
pub(crate) fn remote_given(helpers: &Helpers) -> &[u8] {
    match &helpers.remote {
        Some((_, to)) => to.bytes(),
        None => &[],
    }
}
