//! What is told of a dialer in memory.
ghost use Rattle.std.specs.Prelude.{All, IfOk};
ghost use Rattle.fw_memory.specs.MemDialerView.{IsNewLink};

use crate::devices::{calls_of, tell_take};
use fw_memory::{Calls, MemDialer, MemDoor, MemSink, MemSource};
use fw_outside::{Ask, Dialed, Dialer};
use fw_types::{Dest, Host, NoMemory, Octets};
use lines_of_rows::{Told, add_number, add_word, cut_word, number_of, numbers_of};
use std::alloc::Global;

// A link to a server that says this.
fn link(alloc: Global, text: &[u8]) -> Result<(MemSource, MemSink), NoMemory>
    ensures { IfOk result IsNewLink }
{
    let bytes = Octets::copy(alloc, text)?;
    let to = MemSink::new(alloc, 8, Calls::none())?;
    Ok((MemSource::new(bytes, 8, Calls::none(), Calls::none()), to))
}

// Links to servers that say the texts between commas.
fn links_of(alloc: Global, texts: &[u8]) -> Result<Vec<(MemSource, MemSink)>, NoMemory>
    ensures { IfOk result (λ links. All IsNewLink links.items) }
{
    let mut links = Vec::new(alloc);
    for text in texts.split(|byte| *byte == b',') {
        links.push(link(alloc, text)?)?;
    }
    Ok(links)
}

// Doors at 10.0.0.1, of the ports between commas, or none for `-`.
fn doors_of(alloc: Global, ports: &[u8]) -> Result<Vec<([u8; 4], u16)>, NoMemory> {
    let mut doors = Vec::new(alloc);
    for port in numbers_of(alloc, ports)?.as_slice() {
        doors.push(([10, 0, 0, 1], u16::try_from(*port).unwrap_or(0)))?;
    }
    Ok(doors)
}

fn server() -> Dest {
    Dest {
        host: Host::Addr([10, 0, 0, 5]),
        port: 7,
    }
}

// Dials, tells the first four bytes of the link, and hangs it up.
fn tell_dial(dialer: &mut MemDialer, out: &mut Told) {
    match dialer.dial(&server()) {
        Dialed::Up(mut from, to) => {
            tell_take(&mut from, out);
            dialer.hang_up(from, to);
        }
        Dialed::Refused => add_word(out, b"-refused"),
    }
}

/// `dialer CALLS ROOM FAILS TEXT,.. => TAKEN .. ASKED ENDED`: what each call brings, or `-refused`, how many calls
/// were noted, and how many links were hung up.
pub(crate) fn tell_dialer(alloc: Global, asked: &[u8], out: &mut Told) -> Result<(), NoMemory> {
    let (calls, rest) = cut_word(asked);
    let (room, rest) = cut_word(rest);
    let (fails, texts) = cut_word(rest);
    let links = links_of(alloc, texts)?;
    let fails = calls_of(alloc, fails)?;
    let room = number_of(room) as usize;
    let mut dialer = MemDialer::new(alloc, links, Vec::new(alloc), room, fails)?;
    for _ in 0..number_of(calls) {
        tell_dial(&mut dialer, out);
    }
    add_number(out, dialer.asked().len() as u64);
    add_number(out, dialer.ended().len() as u64);
    Ok(())
}

// Tells the first four bytes of a data link, and lets it go.
fn tell_data(dialer: &mut MemDialer, dialed: Dialed<MemSource, MemSink>, out: &mut Told) {
    match dialed {
        Dialed::Up(mut from, to) => {
            tell_take(&mut from, out);
            dialer.let_go(from, to);
        }
        Dialed::Refused => add_word(out, b"-refused"),
    }
}

fn tell_side(dialer: &mut MemDialer, out: &mut Told) {
    let dialed = dialer.side(&server());
    tell_data(dialer, dialed, out);
}

fn tell_back(dialer: &mut MemDialer, out: &mut Told) {
    let dialed = dialer.back([10, 0, 0, 9], 1024);
    tell_data(dialer, dialed, out);
}

fn tell_accept(dialer: &mut MemDialer, out: &mut Told) {
    let dialed = dialer.accept(&mut MemDoor);
    tell_data(dialer, dialed, out);
}

// Asks for a door, and tells its port.
fn tell_door(dialer: &mut MemDialer, out: &mut Told) {
    match dialer.door() {
        Some((_, _, port)) => add_number(out, u64::from(port)),
        None => add_word(out, b"-none"),
    }
}

fn tell_call(dialer: &mut MemDialer, call: &[u8], out: &mut Told) {
    match call {
        b"dial" => tell_dial(dialer, out),
        b"side" => tell_side(dialer, out),
        b"back" => tell_back(dialer, out),
        b"door" => tell_door(dialer, out),
        b"accept" => tell_accept(dialer, out),
        _ => add_word(out, b"no such call"),
    }
}

fn tell_ask(ask: &Ask, out: &mut Told) {
    match ask {
        Ask::Main(_) => add_word(out, b"main"),
        Ask::Side(_) => add_word(out, b"side"),
        Ask::Back { port, .. } => {
            add_word(out, b"back");
            add_number(out, u64::from(*port));
        }
        Ask::Door {
            at: Some((_, port)),
        } => {
            add_word(out, b"door");
            add_number(out, u64::from(*port));
        }
        Ask::Door { at: None } => add_word(out, b"no-door"),
    }
}

/// `calls ROOM FAILS TEXT,.. PORT,.. CALL,.. => TOLD .. ASKED .. ENDED`: what each of the calls `dial`, `side`, `back`,
/// `door` and `accept` brings, of a link its first bytes, of a door its port, `-refused` or `-none`; then the entries that
/// were noted, and how many links were hung up.
pub(crate) fn tell_calls(alloc: Global, asked: &[u8], out: &mut Told) -> Result<(), NoMemory> {
    let (room, rest) = cut_word(asked);
    let (fails, rest) = cut_word(rest);
    let (texts, rest) = cut_word(rest);
    let (ports, calls) = cut_word(rest);
    let links = links_of(alloc, texts)?;
    let doors = doors_of(alloc, ports)?;
    let fails = calls_of(alloc, fails)?;
    let mut dialer = MemDialer::new(alloc, links, doors, number_of(room) as usize, fails)?;
    for call in calls.split(|byte| *byte == b',') {
        tell_call(&mut dialer, call, out);
    }
    for ask in dialer.asked() {
        tell_ask(ask, out);
    }
    add_number(out, dialer.ended().len() as u64);
    Ok(())
}
