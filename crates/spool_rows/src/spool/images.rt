//! How images of slots open.

use crate::spool::letters::filled;
use crate::spool::marks::marked;
use fw_memory::MemDisk;
use fw_types::NoMemory;
use lines_of_rows::{Told, add_number, cut_word, numbers_of};
use slot_bytes::{Message, Slot, SlotFault, read_slot};
use spool_slots::{Aside, Broken, Full, Opened, ReadBack, SlotWhy, open};
use std::alloc::Global;

// The numbers below pick images of each kind, and tear a slot at places 0 to 3.
const FIRST_PICKS: u64 = 16;

/// Places at which a slot with a message of the rows is torn too: within the head, the length, the number of recipients, a name, the
/// body's first bytes, and the pieces of a long body.
const TEARS: [u64; 9] = [4, 10, 13, 15, 20, 25, 29, 5000, 20000];

/// The number that picks the image which is as read below this place, and synced from there on.
pub(crate) fn tear_at(place: u64) -> u64 {
    place.saturating_mul(4).saturating_add(2)
}

/// The numbers of the images that are looked at where a message is written.
pub(crate) fn picks(alloc: Global) -> Result<Vec<u64>, NoMemory> {
    let mut picks = Vec::new(alloc);
    for pick in 0..FIRST_PICKS {
        picks.push(pick)?;
    }
    for place in TEARS {
        picks.push(tear_at(place))?;
    }
    Ok(picks)
}

/// How many images open as what; a message other than the one that was written is told as bad.
#[derive(Clone, Copy)]
pub(crate) struct Counts {
    free: u64,
    full: u64,
    aside: u64,
    bad: u64,
}

impl Counts {
    fn add_bad(&mut self) {
        self.bad = self.bad.saturating_add(1);
    }
}

// Whether it is the message of the rows, with this body.
fn is_letter(message: &Message, body: &[u8]) -> bool {
    message.from.bytes() == b"a@b".as_slice()
        && message.rcpts.len() == 1
        && message
            .rcpts
            .as_slice()
            .iter()
            .all(|rcpt| rcpt.bytes() == b"c@d".as_slice())
        && message.body.bytes() == body
}

// Counts a message as what its slot opened as, or as bad.
fn count_message(message: &Message, body: &[u8], right: &mut u64, bad: &mut u64) {
    if is_letter(message, body) {
        *right = right.saturating_add(1);
    } else {
        *bad = bad.saturating_add(1);
    }
}

fn count_read(
    read: Result<Message, ReadBack>,
    body: &[u8],
    counts: &mut Counts,
) -> Result<(), NoMemory> {
    match read {
        Ok(message) => {
            count_message(&message, body, &mut counts.full, &mut counts.bad);
            drop(message);
            Ok(())
        }
        Err(ReadBack::DiskFault) => {
            counts.add_bad();
            Ok(())
        }
        Err(ReadBack::NoMemory) => Err(NoMemory),
    }
}

fn count_full(
    alloc: Global,
    mut full: Full<MemDisk>,
    body: &[u8],
    counts: &mut Counts,
) -> Result<(), NoMemory> {
    let read = full.message(alloc);
    drop(full);
    count_read(read, body, counts)
}

fn count_slot(slot: &Slot, body: &[u8], counts: &mut Counts) {
    match slot {
        Slot::Aside(kept) => {
            count_message(&kept.message, body, &mut counts.aside, &mut counts.bad);
        }
        Slot::Free | Slot::Whole(_) => counts.add_bad(),
    }
}

// A slot that was set aside has no call that reads its message, but its bytes have.
fn count_bytes(
    alloc: Global,
    bytes: &[u8],
    body: &[u8],
    counts: &mut Counts,
) -> Result<(), NoMemory> {
    match read_slot(alloc, bytes) {
        Ok(slot) => {
            count_slot(&slot, body, counts);
            drop(slot);
            Ok(())
        }
        Err(SlotFault::Bad { at: _ }) => {
            counts.add_bad();
            Ok(())
        }
        Err(SlotFault::NoMemory) => Err(NoMemory),
    }
}

fn count_aside(
    alloc: Global,
    aside: Aside<MemDisk>,
    body: &[u8],
    counts: &mut Counts,
) -> Result<(), NoMemory> {
    let disk = aside.into_disk();
    let counted = count_bytes(alloc, disk.bytes(), body, counts);
    drop(disk);
    counted
}

fn count_broken(
    broken: Broken<MemDisk>,
    why: SlotWhy,
    counts: &mut Counts,
) -> Result<(), NoMemory> {
    drop(broken);
    if why == SlotWhy::NoMemory {
        return Err(NoMemory);
    }
    counts.add_bad();
    Ok(())
}

fn count_opened(
    alloc: Global,
    opened: Opened<MemDisk>,
    body: &[u8],
    counts: &mut Counts,
) -> Result<(), NoMemory> {
    match opened {
        Opened::Free(free) => {
            drop(free);
            counts.free = counts.free.saturating_add(1);
            Ok(())
        }
        Opened::Full(full) => count_full(alloc, full, body, counts),
        Opened::Aside(aside) => count_aside(alloc, aside, body, counts),
    }
}

/// Counts an image as what it opens as.
pub(crate) fn count(
    alloc: Global,
    disk: MemDisk,
    body: &[u8],
    counts: &mut Counts,
) -> Result<(), NoMemory> {
    match open(alloc, 7, disk) {
        Ok(opened) => count_opened(alloc, opened, body, counts),
        Err((broken, why)) => count_broken(broken, why, counts),
    }
}

pub(crate) fn tell_counts(counts: Counts, out: &mut Told) {
    add_number(out, counts.free);
    add_number(out, counts.full);
    add_number(out, counts.aside);
    add_number(out, counts.bad);
}

/// No images.
pub(crate) const NONE: Counts = Counts {
    free: 0,
    full: 0,
    aside: 0,
    bad: 0,
};

// Adds so many letters.
fn add_letters(body: &mut Vec<u8>, len: u64) -> Result<(), NoMemory> {
    for _ in 0..len {
        body.push(b'x')?;
    }
    Ok(())
}

/// A body of pieces of these lengths.
pub(crate) fn body_of(alloc: Global, lengths: &[u8]) -> Result<Vec<u8>, NoMemory> {
    let lengths = numbers_of(alloc, lengths)?;
    let mut body = Vec::new(alloc);
    for len in &lengths {
        add_letters(&mut body, (*len).min(8192))?;
    }
    Ok(body)
}

// Counts the image that the number picks after `fill`.
fn count_filled(
    alloc: Global,
    asked: &[u8],
    pick: u64,
    body: &[u8],
    counts: &mut Counts,
) -> Result<(), NoMemory> {
    let disk = filled(alloc, asked, true, &mut Told::new())?;
    let image = disk.crash(pick)?;
    count(alloc, image, body, counts)
}

// Counts the image that the number picks after `set-aside` or `release`.
fn count_marked(
    alloc: Global,
    kind: &str,
    asked: &[u8],
    pick: u64,
    counts: &mut Counts,
) -> Result<(), NoMemory> {
    let disk = marked(alloc, kind, asked, &mut Told::new())?;
    let image = disk.crash(pick)?;
    count(alloc, image, b"abc\r\n", counts)
}

/// `fill-crashes LENGTHS FIRST => FREE FULL ASIDE BAD`: how many of the images after `fill` that the numbers 0 to 15 pick, or that are
/// torn at one of nine places, open as what; full or aside only where the message is the one that was written.
pub(crate) fn tell_fill_crashes(
    alloc: Global,
    asked: &[u8],
    out: &mut Told,
) -> Result<(), NoMemory> {
    let body = body_of(alloc, cut_word(asked).0)?;
    let mut counts = NONE;
    for pick in picks(alloc)?.as_slice() {
        count_filled(alloc, asked, *pick, &body, &mut counts)?;
    }
    tell_counts(counts, out);
    Ok(())
}

/// `set-aside-crashes DIGITS FIRST`, `release-crashes DIGITS FIRST => FREE FULL ASIDE BAD`: how many of the images that the numbers 0
/// to 15 pick after `set-aside` and `release` of a slot whose body is `abc`, CR, LF open as what. These write one byte, the first or
/// the second.
pub(crate) fn tell_mark_crashes(
    alloc: Global,
    kind: &str,
    asked: &[u8],
    out: &mut Told,
) -> Result<(), NoMemory> {
    let mut counts = NONE;
    for pick in 0..FIRST_PICKS {
        count_marked(alloc, kind, asked, pick, &mut counts)?;
    }
    tell_counts(counts, out);
    Ok(())
}
