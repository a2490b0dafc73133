//! A round over devices in memory.
use crate::round::asked::{Fails, answers_of, disks_of};
use fw_memory::{MemDisk, MemMailer, MemSink};
use fw_types::{Message, NoMemory};
use lines_of_rows::{cut, cut_word, number_of};
use smapd_queue::{Handed, Mailer, Rounded, smapd_round_telling};
use spool_rack::Rack;
use std::alloc::Global;

// For so many bytes there is room in the log.
const ROOM: usize = 4096;

/// What came of a round.
#[derive(Drop)]
pub(crate) struct Played {
    pub rounded: Rounded,
    pub log: MemSink,
    /// The messages that the mailer shows, each as `FROM:RCPT:BODY;`.
    pub shown: Vec<u8>,
    /// The disks of all slots afterwards, in order.
    pub disks: Vec<MemDisk>,
}

impl Played {
    fn into_disks(self) -> Vec<MemDisk> {
        let Played {
            rounded: _,
            log,
            shown,
            disks,
        } = self;
        drop(log);
        drop(shown);
        disks
    }
}

// The disk of this number.
fn disk_at(disks: Vec<MemDisk>, number: u64) -> Option<MemDisk> {
    let mut at = 0u64;
    for disk in disks {
        if at == number {
            return Some(disk);
        }
        drop(disk);
        at = at.saturating_add(1);
    }
    None
}

// Adds a text, with `^` for each CR LF and for each other LF.
fn add_body(out: &mut Vec<u8>, text: &[u8]) -> Result<(), NoMemory> {
    for byte in text {
        match byte {
            b'\r' => (),
            b'\n' => out.push(b'^')?,
            other => out.push(*other)?,
        }
    }
    Ok(())
}

// Adds a message.
fn add_message(out: &mut Vec<u8>, message: &Message) -> Result<(), NoMemory> {
    out.extend_from_slice(message.from.bytes())?;
    for rcpt in message.rcpts.as_slice() {
        out.push(b':')?;
        out.extend_from_slice(rcpt.bytes())?;
    }
    out.push(b':')?;
    add_body(out, message.body.bytes())?;
    out.push(b';')?;
    Ok(())
}

// The messages that the first mailer shows.
fn shown_by(alloc: Global, mailers: &[Box<dyn Mailer>]) -> Result<Vec<u8>, NoMemory> {
    let mut out = Vec::new(alloc);
    if let Some(mailer) = mailers.first() {
        for message in mailer.shown() {
            add_message(&mut out, message)?;
        }
    }
    Ok(out)
}

// The round by a mailer with these answers, and the messages that it shows then.
fn hand_on(
    alloc: Global,
    rack: &mut Rack<MemDisk>,
    answers: Vec<Handed>,
    turns: u32,
    log: &mut MemSink,
) -> Result<(Rounded, Vec<u8>), NoMemory> {
    let mut mailers: Vec<Box<dyn Mailer>> = Vec::new(alloc);
    mailers.push(Box::new(alloc, MemMailer::new(alloc, answers))?)?;
    let rounded = smapd_round_telling(alloc, rack, &mut mailers, turns, log);
    let shown = shown_by(alloc, &mailers)?;
    Ok((rounded, shown))
}

// The same, with the log.
fn hand_on_logging(
    alloc: Global,
    rack: &mut Rack<MemDisk>,
    answers: &[u8],
    turns: u32,
    fails: Fails,
) -> Result<(Rounded, Vec<u8>, MemSink), NoMemory> {
    let answers = answers_of(alloc, answers)?;
    let mut log = MemSink::new(alloc, ROOM, fails.of_log())?;
    match hand_on(alloc, rack, answers, turns, &mut log) {
        Ok((rounded, shown)) => Ok((rounded, shown, log)),
        Err(NoMemory) => {
            drop(log);
            Err(NoMemory)
        }
    }
}

// The round over a rack.
fn serve(
    alloc: Global,
    mut rack: Rack<MemDisk>,
    answers: &[u8],
    turns: u32,
    fails: Fails,
) -> Result<Played, NoMemory> {
    let handed = hand_on_logging(alloc, &mut rack, answers, turns, fails);
    let disks = rack.close();
    let (rounded, shown, log) = handed?;
    Ok(Played {
        rounded,
        log,
        shown,
        disks,
    })
}

// A rack of the slots, where there aren't too many, and each of them is opened.
fn rack_of(alloc: Global, slots: &[u8], fails: Fails) -> Result<Option<Rack<MemDisk>>, NoMemory> {
    let disks = disks_of(alloc, slots, fails)?;
    if disks.len() > 64 {
        return Ok(None);
    }
    match Rack::open(alloc, disks) {
        Ok(rack) => Ok(Some(rack)),
        Err(fault) => {
            drop(fault);
            Ok(None)
        }
    }
}

/// Plays the round that is asked for, and tells what came of it; nothing where there are too many slots, or one of them isn't
/// opened.
pub(crate) fn play(alloc: Global, asked: &[u8], fails: Fails) -> Result<Option<Played>, NoMemory> {
    let (slots, rest) = cut_word(asked);
    let (answers, turns) = cut_word(rest);
    let turns = number_of(turns).min(1000) as u32;
    match rack_of(alloc, slots, fails)? {
        Some(rack) => Ok(Some(serve(alloc, rack, answers, turns, fails)?)),
        None => Ok(None),
    }
}

/// The disk of the slot with this number, after the round that is asked for.
pub(crate) fn disk_after(
    alloc: Global,
    asked: &[u8],
    fails: Fails,
    slot: u64,
) -> Result<Option<MemDisk>, NoMemory> {
    match play(alloc, asked, fails)? {
        Some(played) => Ok(disk_at(played.into_disks(), slot)),
        None => Ok(None),
    }
}

/// The number in front of what is asked, and the rest of it.
pub(crate) fn number_in_front(asked: &[u8]) -> (u64, &[u8]) {
    let (digits, rest) = cut(asked, b' ');
    (number_of(digits), rest)
}
