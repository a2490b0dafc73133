//! Runs of `smapd` in which each disk fails at each of its calls.

use crate::mail::asked::{Asked, slot_of};
use crate::mail::breaking::{Broken, Part};
use crate::mail::handing::answers_of;
use crate::mail::running::run_over;
use crate::mail::sweep::{DISK_CALLS, IMAGES, count_slots, pick_of};
use crate::shown::add_message;
use crate::world::Ended;
use fw_memory::MemDisk;
use fw_types::{Message, NoMemory};
use lines_of_rows::{Told, add, add_number};
use slot_bytes::{Slot, SlotFault, read_slot};
use std::alloc::Global;
use std::thread::Threads;

// A slot by its bytes: the mark of its kind, and its message, as `letters.rt` writes it.
#[derive(Drop)]
struct Read {
    mark: u8,
    message: Vec<u8>,
}

fn with(alloc: Global, mark: u8, message: &Message) -> Result<Read, NoMemory> {
    let mut text = Vec::new(alloc);
    add_message(&mut text, message)?;
    Ok(Read {
        mark,
        message: text,
    })
}

fn without(alloc: Global, mark: u8) -> Read {
    Read {
        mark,
        message: Vec::new(alloc),
    }
}

fn read_of(alloc: Global, slot: &Slot) -> Result<Read, NoMemory> {
    match slot {
        Slot::Free => Ok(without(alloc, b'f')),
        Slot::Whole(kept) => with(alloc, b'w', &kept.message),
        Slot::Aside(kept) => with(alloc, b'a', &kept.message),
    }
}

fn slot_read(alloc: Global, bytes: &[u8]) -> Result<Read, NoMemory> {
    match read_slot(alloc, bytes) {
        Ok(slot) => {
            let read = read_of(alloc, &slot);
            drop(slot);
            read
        }
        Err(SlotFault::Bad { at: _ }) => Ok(without(alloc, b'b')),
        Err(SlotFault::NoMemory) => Err(NoMemory),
    }
}

// Whether a text has a message, which ends in `;`.
fn has_message(text: &[u8], message: &[u8]) -> bool {
    let Some(message) = message.strip_suffix(b";") else {
        return false;
    };
    for one in text.split(|byte| *byte == b';') {
        if one == message {
            return true;
        }
    }
    false
}

// Whether a slot of this kind may be of that one then, with the message that it had.
fn may_be(before: u8, image: u8) -> bool {
    if before == b'w' && image == b'a' {
        return true;
    }
    before == image && before != b'b'
}

// Whether an image of a slot has the message that was there, or the mailer took it.
fn is_right(before: &Read, image: &Read, shown: &[u8]) -> bool {
    if before.mark == b'w' && image.mark == b'f' {
        return has_message(shown, &before.message);
    }
    may_be(before.mark, image.mark) && image.message.as_slice() == before.message.as_slice()
}

// A slot as a row says it.
fn word_read(alloc: Global, word: &[u8]) -> Result<Read, NoMemory> {
    let bytes = slot_of(alloc, word)?;
    slot_read(alloc, bytes.bytes())
}

// An image, which isn't needed any more then.
fn image_read(alloc: Global, image: MemDisk) -> Result<Read, NoMemory> {
    let read = slot_read(alloc, image.bytes());
    drop(image);
    read
}

fn is_image_right(
    alloc: Global,
    word: &[u8],
    image: MemDisk,
    shown: &[u8],
) -> Result<bool, NoMemory> {
    let image = image_read(alloc, image)?;
    let before = word_read(alloc, word)?;
    Ok(is_right(&before, &image, shown))
}

// Whether the images that the number picks are.
fn are_right(alloc: Global, slots: &[u8], ended: Ended, pick: u64) -> Result<bool, NoMemory> {
    let (disks, shown) = ended.into_left();
    let mut words = slots.split(|byte| *byte == b',');
    for disk in disks {
        let word = words.next().unwrap_or(b"");
        if !is_image_right(alloc, word, disk.crash(pick)?, &shown)? {
            return Ok(false);
        }
    }
    Ok(true)
}

fn stands<H: Threads + Sync>(
    threads: &H,
    alloc: Global,
    asked: Asked,
    broken: Broken,
    pick: u64,
) -> Result<bool, NoMemory> {
    let answers = answers_of(alloc, asked.client)?;
    match run_over(threads, alloc, asked, broken, answers)? {
        Some(ended) => are_right(alloc, asked.slots, ended, pick),
        None => Ok(false),
    }
}

// How many of so many images, behind a run in which this fails, aren't right.
fn wrong_images<H: Threads + Sync>(
    threads: &H,
    alloc: Global,
    asked: Asked,
    broken: Broken,
    images: u64,
) -> Result<u64, NoMemory> {
    let mut count = 0u64;
    for image in 0..images {
        let pick = pick_of(broken.at, image);
        if !stands(threads, alloc, asked, broken, pick)? {
            count = count.saturating_add(1);
        }
    }
    Ok(count)
}

// The same for all runs in which the part fails.
fn wrong_with<H: Threads + Sync>(
    threads: &H,
    alloc: Global,
    asked: Asked,
    part: Part,
    images: u64,
) -> Result<u64, NoMemory> {
    let mut count = 0u64;
    for at in 0..DISK_CALLS {
        let wrong = wrong_images(threads, alloc, asked, Broken { part, at }, images)?;
        count = count.saturating_add(wrong);
    }
    Ok(count)
}

/// `rounds WORDS!TABLE!SLOTS!ANSWERS => N lost`: how many images, behind runs of `smapd` in which a disk fails at one call or
/// from a call on, or the log at a call, have a slot that can't be read, or lacks the message that it had and that the mailer
/// didn't take.
pub(crate) fn tell_rounds<H: Threads + Sync>(
    threads: &H,
    alloc: Global,
    asked: &[u8],
    out: &mut Told,
) -> Result<(), NoMemory> {
    let asked = Asked::of(asked);
    let mut count = wrong_with(threads, alloc, asked, Part::Log, 1)?;
    for slot in 0..count_slots(asked.slots).min(64) {
        let once = wrong_with(threads, alloc, asked, Part::Disk(slot), 1)?;
        let onward = wrong_with(threads, alloc, asked, Part::DiskOnward(slot), IMAGES)?;
        count = count.saturating_add(once).saturating_add(onward);
    }
    add_number(out, count);
    add(out, b" lost");
    Ok(())
}
