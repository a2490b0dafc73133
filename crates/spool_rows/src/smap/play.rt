//! A session over devices in memory.
ghost use Rattle.std.specs.Prelude.{◌≤◌};

use fw_memory::{Calls, MemDisk, MemSink, MemSource};
use fw_types::{Ending, NoMemory, Octets, Peer};
use lines_of_rows::{cut, cut_word, from_hex, number_of};
use smap_gate::smap_session;
use spool_rack::Rack;
use std::alloc::Global;
use std::str;

// So many bytes come of the client at once.
const PIECE: usize = 7;

// For so many bytes there is room in the log and at the client.
const ROOM: usize = 4096;

// So many calls are made of a disk when a free slot is opened.
const BEFORE: u64 = 2;

/// Which calls of the devices fail.
#[derive(Clone, Copy)]
pub(crate) struct Fails {
    /// Of the disk of the slot with this number, those behind its opening from this one on.
    pub disk: Option<(u64, u64)>,
    /// Of the client's source, those from this one on.
    pub source: Option<u64>,
    /// Of the client's sink, those from this one on.
    pub sink: Option<u64>,
    /// Of the log, those from this one on.
    pub log: Option<u64>,
}

// The calls from this one on, or none.
fn onward(first: Option<u64>) -> Calls {
    match first {
        Some(first) => Calls::onward(first),
        None => Calls::none(),
    }
}

impl Fails {
    /// None.
    pub(crate) fn none() -> Fails {
        Fails {
            disk: None,
            source: None,
            sink: None,
            log: None,
        }
    }

    // Those of the disk of this slot.
    fn of_slot(&self, slot: u64) -> Calls {
        match self.disk {
            Some((number, first)) if number == slot => Calls::onward(first.saturating_add(BEFORE)),
            _ => Calls::none(),
        }
    }
}

/// What came of a session, and the rack afterwards.
#[derive(Drop)]
pub(crate) struct Held {
    pub ending: Ending,
    pub to: MemSink,
    pub log: MemSink,
    pub rack: Rack<MemDisk>,
}

/// What came of a session.
#[derive(Drop)]
pub(crate) struct Played {
    pub ending: Ending,
    pub to: MemSink,
    pub log: MemSink,
    /// The disks of all slots afterwards, in order.
    pub disks: Vec<MemDisk>,
}

impl Held {
    // Closes the rack.
    fn close(self) -> Played {
        let Held {
            ending,
            to,
            log,
            rack,
        } = self;
        Played {
            ending,
            to,
            log,
            disks: rack.close(),
        }
    }
}

// The bytes of a slot: `f` a free one, `w` with a message of 31 bytes, or digits.
fn slot_of(alloc: Global, word: &[u8]) -> Result<Vec<u8>, NoMemory> {
    let digits: &[u8] = match word {
        b"f" => b"0000",
        b"w" => b"01004657533100000000000000050001000361406200036340646162630d0a",
        digits => digits,
    };
    from_hex(alloc, str::from_utf8(digits).unwrap_or(""))
}

fn disks_of(alloc: Global, words: &[u8], fails: Fails) -> Result<Vec<MemDisk>, NoMemory> {
    let mut disks = Vec::new(alloc);
    let mut number = 0u64;
    for word in words.split(|byte| *byte == b',') {
        let bytes = Octets::of(slot_of(alloc, word)?);
        disks.push(MemDisk::new(alloc, bytes, fails.of_slot(number)))?;
        number = number.saturating_add(1);
    }
    Ok(disks)
}

// What the client says, with CR LF for each `^`.
fn client_of(alloc: Global, text: &[u8]) -> Result<Octets, NoMemory> {
    let mut bytes = Vec::new(alloc);
    for byte in text {
        match byte {
            b'^' => bytes.extend_from_slice(b"\r\n")?,
            other => bytes.push(*other)?,
        }
    }
    Ok(Octets::of(bytes))
}

// The number that the digits are, up to the most.
fn number_up_to(digits: &[u8], most: u64) -> u64
    ensures { result ≤ most }
{
    number_of(digits).min(most)
}

fn count_up_to_1000(digits: &[u8]) -> u32
    ensures { result ≤ 1000 }
{
    number_up_to(digits, 1000) as u32
}

fn peer() -> Peer {
    Peer {
        addr: Some([10, 0, 0, 5]),
        name: None,
    }
}

// The devices of a session but its rack.
#[derive(Drop)]
struct Devices {
    from: MemSource,
    to: MemSink,
    log: MemSink,
}

// Both, where there is memory for each.
fn both<A: Drop, B: Drop>(
    first: Result<A, NoMemory>,
    second: Result<B, NoMemory>,
) -> Result<(A, B), NoMemory> {
    Ok((first?, second?))
}

fn devices_of(alloc: Global, client: &[u8], fails: Fails) -> Result<Devices, NoMemory> {
    let said = client_of(alloc, client)?;
    let (to, log) = both(
        MemSink::new(alloc, ROOM, onward(fails.sink)),
        MemSink::new(alloc, ROOM, onward(fails.log)),
    )?;
    Ok(Devices {
        from: MemSource::new(said, PIECE, onward(fails.source), Calls::none()),
        to,
        log,
    })
}

// The one call of `smap_session`.
fn hold(
    alloc: Global,
    limits: (u64, u32),
    rack: &mut Rack<MemDisk>,
    devices: &mut Devices,
) -> Ending
    requires bytes { limits.0 ≤ 67108864 }
    requires rcpts { limits.1 ≤ 1000 }
{
    let (max_bytes, max_rcpts) = limits;
    smap_session(
        alloc,
        &peer(),
        max_bytes,
        max_rcpts,
        &mut devices.from,
        &mut devices.to,
        &mut devices.log,
        rack,
    )
}

// The session over a rack.
fn serve(alloc: Global, limits: (u64, u32), mut rack: Rack<MemDisk>, mut devices: Devices) -> Held
    requires bytes { limits.0 ≤ 67108864 }
    requires rcpts { limits.1 ≤ 1000 }
{
    let ending = hold(alloc, limits, &mut rack, &mut devices);
    let Devices { from, to, log } = devices;
    drop(from);
    Held {
        ending,
        to,
        log,
        rack,
    }
}

/// A rack of the slots, where there aren't too many, and each of them is opened.
pub(crate) fn rack_of(
    alloc: Global,
    slots: &[u8],
    fails: Fails,
) -> Result<Option<Rack<MemDisk>>, NoMemory> {
    let disks = disks_of(alloc, slots, fails)?;
    if disks.len() > 64 {
        return Ok(None);
    }
    match Rack::open(alloc, disks) {
        Ok(rack) => Ok(Some(rack)),
        Err(fault) => {
            drop(fault);
            Ok(None)
        }
    }
}

// The session of a client that says this, over a rack.
fn play_over(
    alloc: Global,
    limits: (u64, u32),
    client: &[u8],
    rack: Rack<MemDisk>,
    fails: Fails,
) -> Result<Held, NoMemory>
    requires bytes { limits.0 ≤ 67108864 }
    requires rcpts { limits.1 ≤ 1000 }
{
    match devices_of(alloc, client, fails) {
        Ok(devices) => Ok(serve(alloc, limits, rack, devices)),
        Err(NoMemory) => {
            drop(rack);
            Err(NoMemory)
        }
    }
}

/// Holds the session that is asked for, and gives the rack back with what came of it; nothing where there are too many slots, or one
/// of them isn't opened.
pub(crate) fn hold_all(
    alloc: Global,
    asked: &[u8],
    fails: Fails,
) -> Result<Option<Held>, NoMemory> {
    let (slots, rest) = cut_word(asked);
    let (bytes, rest) = cut_word(rest);
    let (rcpts, client) = cut_word(rest);
    match rack_of(alloc, slots, fails)? {
        Some(rack) => {
            let limits = (number_up_to(bytes, 67108864), count_up_to_1000(rcpts));
            Ok(Some(play_over(alloc, limits, client, rack, fails)?))
        }
        None => Ok(None),
    }
}

/// Plays the session that is asked for, and tells what came of it; nothing where there are too many slots, or one of them
/// isn't opened.
pub(crate) fn play(alloc: Global, asked: &[u8], fails: Fails) -> Result<Option<Played>, NoMemory> {
    match hold_all(alloc, asked, fails)? {
        Some(held) => Ok(Some(held.close())),
        None => Ok(None),
    }
}

/// The number in front of what is asked, and the rest of it.
pub(crate) fn number_in_front(asked: &[u8]) -> (u64, &[u8]) {
    let (digits, rest) = cut(asked, b' ');
    (number_of(digits), rest)
}
