//! What is told of messages in slots on disks in memory.
ghost use Rattle.std.specs.Prelude.{◌+◌, ◌≤◌, ◌≡◌, ◌∷◌, [], codes, IfOk};

use crate::spool::slots::recipients;
use fw_memory::{Calls, MemDisk};
use fw_types::{NoMemory, Octets, OctetsList};
use lines_of_rows::{Told, add_number, add_word, cut_word, number_of, numbers_of};
use spool_slots::{Aside, Broken, Filling, Free, Full, StartFault, format};
use std::alloc::Global;

// How many calls of the disk `format` makes, and `open` of a small slot with a message.
const BEFORE: u64 = 3;

/// From this call on, counted after so many, or none for `-`.
pub(crate) fn failing_after(before: u64, first: &[u8]) -> Calls {
    match first {
        [b'-'] => Calls::none(),
        _ => Calls::onward(number_of(first).saturating_add(before)),
    }
}

/// From this call on, counted after those of `format`, or of `open` of a small slot with a message.
pub(crate) fn failing(first: &[u8]) -> Calls {
    failing_after(BEFORE, first)
}

pub(crate) fn tell_broken(broken: Broken<MemDisk>, out: &mut Told) -> MemDisk {
    add_word(out, b"broken");
    if broken.is_from_full() {
        add_word(out, b"full");
    }
    if !broken.is_from_fault() {
        add_word(out, b"unread");
    }
    broken.into_disk()
}

pub(crate) fn tell_free(free: Free<MemDisk>, out: &mut Told) -> MemDisk {
    add_word(out, b"free");
    add_number(out, u64::from(free.number()));
    free.into_disk()
}

pub(crate) fn tell_aside(aside: Aside<MemDisk>, out: &mut Told) -> MemDisk {
    add_word(out, b"aside");
    add_number(out, u64::from(aside.number()));
    aside.into_disk()
}

pub(crate) fn tell_full(full: Full<MemDisk>, out: &mut Told) -> MemDisk {
    add_word(out, b"full");
    add_number(out, u64::from(full.number()));
    full.into_disk()
}

// Adds so many bytes, at most 8,192.
fn add_piece(filling: Filling<MemDisk>, len: u64) -> Result<Filling<MemDisk>, Broken<MemDisk>>
    requires { filling.pen.len ≤ 100000 }
    ensures { IfOk result (λ longer. longer.pen.len ≤ filling.pen.len + 8192) }
{
    let block = [b'x'; 8192];
    filling.add(&block[..len.min(8192) as usize])
}

fn length_at(lengths: &[u64], at: usize) -> u64 {
    match lengths.get(at) {
        Some(length) => *length,
        None => 0,
    }
}

// Adds three pieces, and finishes the message or gives it up.
fn fill(filling: Filling<MemDisk>, lengths: &[u64], keep: bool, out: &mut Told) -> MemDisk
    requires { filling.pen.len ≤ 8192 }
{
    add_word(out, b"started");
    let filling = match add_piece(filling, length_at(lengths, 0)) {
        Ok(filling) => filling,
        Err(broken) => return tell_broken(broken, out),
    };
    add_word(out, b"added");
    let filling = match add_piece(filling, length_at(lengths, 1)) {
        Ok(filling) => filling,
        Err(broken) => return tell_broken(broken, out),
    };
    add_word(out, b"added");
    let filling = match add_piece(filling, length_at(lengths, 2)) {
        Ok(filling) => filling,
        Err(broken) => return tell_broken(broken, out),
    };
    add_word(out, b"added");
    if !keep {
        return tell_free(filling.abandon(), out);
    }
    match filling.finish() {
        Ok(full) => tell_full(full, out),
        Err(broken) => tell_broken(broken, out),
    }
}

/// A message in this free slot, with pieces of these lengths.
pub(crate) fn start_and_fill(
    alloc: Global,
    free: Free<MemDisk>,
    rcpts: &OctetsList,
    lengths: &[u64],
    keep: bool,
    out: &mut Told,
) -> Result<MemDisk, NoMemory>
    requires { rcpts.now ≡ codes "c@d" ∷ [] }
{
    match free.start(alloc, b"a@b", rcpts) {
        Ok(filling) => Ok(fill(filling, lengths, keep, out)),
        Err(StartFault::NoMemory(free)) => {
            drop(free);
            Err(NoMemory)
        }
        Err(StartFault::Disk(broken)) => Ok(tell_broken(broken, out)),
    }
}

// A message in a slot with this disk, which is formatted first.
fn format_and_fill(
    alloc: Global,
    disk: MemDisk,
    rcpts: &OctetsList,
    lengths: &[u64],
    keep: bool,
    out: &mut Told,
) -> Result<MemDisk, NoMemory>
    requires { rcpts.now ≡ codes "c@d" ∷ [] }
{
    match format(7, disk) {
        Ok(free) => start_and_fill(alloc, free, rcpts, lengths, keep, out),
        Err(broken) => Ok(tell_broken(broken, out)),
    }
}

// A message in a slot that was formatted.
pub(crate) fn filled(
    alloc: Global,
    asked: &[u8],
    keep: bool,
    out: &mut Told,
) -> Result<MemDisk, NoMemory> {
    let (pieces, first) = cut_word(asked);
    let lengths = numbers_of(alloc, pieces)?;
    let rcpts = recipients(alloc)?;
    let disk = MemDisk::new(alloc, Octets::of(Vec::new(alloc)), failing(first));
    let filled = format_and_fill(alloc, disk, &rcpts, &lengths, keep, out);
    drop(rcpts);
    filled
}

/// `fill LENGTHS FIRST => started added .. full 7`, or `broken` where the disk failed: a message with up to three pieces
/// of these lengths. The disk's calls are counted from the first of `start`, and fail from the call `FIRST` on.
pub(crate) fn tell_fill(alloc: Global, asked: &[u8], out: &mut Told) -> Result<(), NoMemory> {
    drop(filled(alloc, asked, true, out)?);
    Ok(())
}

/// `abandon LENGTHS FIRST => started added .. free 7`: the same, but the message is given up.
pub(crate) fn tell_abandon(alloc: Global, asked: &[u8], out: &mut Told) -> Result<(), NoMemory> {
    drop(filled(alloc, asked, false, out)?);
    Ok(())
}
