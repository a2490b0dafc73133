//! What is told of messages in free slots that had others before.
ghost use Rattle.std.specs.Prelude.{◌≡◌, ◌∷◌, [], codes};

use crate::spool::disks::bytes_of;
use crate::spool::images::{NONE, body_of, count, picks, tear_at, tell_counts};
use crate::spool::letters::{failing_after, start_and_fill, tell_aside, tell_broken, tell_full};
use crate::spool::slots::recipients;
use fw_memory::MemDisk;
use fw_types::{NoMemory, Octets, OctetsList};
use lines_of_rows::{Told, add_hex, cut_word, number_of, numbers_of};
use spool_slots::{Opened, SlotWhy, open};
use std::alloc::Global;

// How many calls of the disk `open` of a free slot makes.
const BEFORE: u64 = 2;

// A message in this slot, if it is free.
fn fill_opened(
    alloc: Global,
    opened: Opened<MemDisk>,
    rcpts: &OctetsList,
    lengths: &[u64],
    out: &mut Told,
) -> Result<MemDisk, NoMemory>
    requires { rcpts.now ≡ codes "c@d" ∷ [] }
{
    match opened {
        Opened::Free(free) => start_and_fill(alloc, free, rcpts, lengths, true, out),
        Opened::Full(full) => Ok(tell_full(full, out)),
        Opened::Aside(aside) => Ok(tell_aside(aside, out)),
    }
}

// A message in a slot with this disk, which is opened first.
fn open_and_fill(
    alloc: Global,
    disk: MemDisk,
    rcpts: &OctetsList,
    lengths: &[u64],
    out: &mut Told,
) -> Result<MemDisk, NoMemory>
    requires { rcpts.now ≡ codes "c@d" ∷ [] }
{
    match open(alloc, 7, disk) {
        Ok(opened) => fill_opened(alloc, opened, rcpts, lengths, out),
        Err((broken, SlotWhy::NoMemory)) => {
            drop(broken);
            Err(NoMemory)
        }
        Err((broken, _)) => Ok(tell_broken(broken, out)),
    }
}

// A message in a slot that had these bytes.
fn refilled(alloc: Global, asked: &[u8], out: &mut Told) -> Result<MemDisk, NoMemory> {
    let (digits, rest) = cut_word(asked);
    let (pieces, first) = cut_word(rest);
    let lengths = numbers_of(alloc, pieces)?;
    let bytes = bytes_of(alloc, digits)?;
    let rcpts = recipients(alloc)?;
    let disk = MemDisk::new(alloc, Octets::of(bytes), failing_after(BEFORE, first));
    let filled = open_and_fill(alloc, disk, &rcpts, &lengths, out);
    drop(rcpts);
    filled
}

/// `refill DIGITS LENGTHS FIRST => started added .. full 7`: what `fill` tells, of a free slot with these bytes, which is opened first. The
/// disk's calls are counted from the first of `start`, too.
pub(crate) fn tell_refill(alloc: Global, asked: &[u8], out: &mut Told) -> Result<(), NoMemory> {
    drop(refilled(alloc, asked, out)?);
    Ok(())
}

// The image that the number picks after `refill`.
fn image_of(alloc: Global, asked: &[u8], pick: u64) -> Result<MemDisk, NoMemory> {
    refilled(alloc, asked, &mut Told::new())?.crash(pick)
}

/// `refill-crashes DIGITS LENGTHS FIRST => FREE FULL ASIDE BAD`: what `fill-crashes` tells, after `refill`.
pub(crate) fn tell_refill_crashes(
    alloc: Global,
    asked: &[u8],
    out: &mut Told,
) -> Result<(), NoMemory> {
    let (_, rest) = cut_word(asked);
    let body = body_of(alloc, cut_word(rest).0)?;
    let mut counts = NONE;
    for pick in picks(alloc)?.as_slice() {
        count(alloc, image_of(alloc, asked, *pick)?, &body, &mut counts)?;
    }
    tell_counts(counts, out);
    Ok(())
}

/// `torn PLACE DIGITS LENGTHS FIRST => DIGITS`: the bytes of the image after `refill` that is torn at this place.
pub(crate) fn tell_torn(alloc: Global, asked: &[u8], out: &mut Told) -> Result<(), NoMemory> {
    let (place, rest) = cut_word(asked);
    let image = image_of(alloc, rest, tear_at(number_of(place)))?;
    add_hex(out, image.bytes());
    drop(image);
    Ok(())
}
