//! Images of the slots behind a run, each of which a crash may leave.

use crate::mail::asked::slot_of;
use crate::mail::kept::{Kept, are_logged, kept_in, kept_of};
use crate::mail::letters::{Letter, is_any, letter_at};
use crate::world::Ended;
use fw_memory::MemDisk;
use fw_types::{Message, NoMemory};
use spool_slots::{Broken, Full, Opened, ReadBack, SlotWhy, open};
use std::alloc::Global;

// The message in a slot, where it can be read.
fn message_in(alloc: Global, mut full: Full<MemDisk>) -> Result<Option<Message>, NoMemory> {
    let read = full.message(alloc);
    drop(full);
    match read {
        Ok(message) => Ok(Some(message)),
        Err(ReadBack::DiskFault) => Ok(None),
        Err(ReadBack::NoMemory) => Err(NoMemory),
    }
}

// What an image opens as.
#[derive(Drop)]
enum Image {
    Free,
    Full(Message),
    Other,
}

fn image_in(alloc: Global, full: Full<MemDisk>) -> Result<Image, NoMemory> {
    match message_in(alloc, full)? {
        Some(message) => Ok(Image::Full(message)),
        None => Ok(Image::Other),
    }
}

fn image_of(alloc: Global, opened: Opened<MemDisk>) -> Result<Image, NoMemory> {
    match opened {
        Opened::Free(free) => {
            drop(free);
            Ok(Image::Free)
        }
        Opened::Full(full) => image_in(alloc, full),
        Opened::Aside(aside) => {
            drop(aside);
            Ok(Image::Other)
        }
    }
}

fn image_of_broken(broken: Broken<MemDisk>, why: SlotWhy) -> Result<Image, NoMemory> {
    drop(broken);
    match why {
        SlotWhy::NoMemory => Err(NoMemory),
        _ => Ok(Image::Other),
    }
}

fn opened(alloc: Global, disk: MemDisk) -> Result<Image, NoMemory> {
    match open(alloc, 0, disk) {
        Ok(opened) => image_of(alloc, opened),
        Err((broken, why)) => image_of_broken(broken, why),
    }
}

// Whether it opens as a slot with this message.
fn has_letter(alloc: Global, image: MemDisk, letter: &Letter) -> Result<bool, NoMemory> {
    match opened(alloc, image)? {
        Image::Full(message) => {
            let same = letter.is(&message);
            drop(message);
            Ok(same)
        }
        Image::Free | Image::Other => Ok(false),
    }
}

// Whether it opens as a free slot, or as one with any of these messages.
fn has_any(alloc: Global, image: MemDisk, letters: &[u8]) -> Result<bool, NoMemory> {
    match opened(alloc, image)? {
        Image::Free => Ok(true),
        Image::Full(message) => {
            let any = is_any(letters, &message);
            drop(message);
            Ok(any)
        }
        Image::Other => Ok(false),
    }
}

// Whether it has the bytes that the slot had.
fn has_stayed(alloc: Global, image: &MemDisk, word: &[u8]) -> Result<bool, NoMemory> {
    let before = slot_of(alloc, word)?;
    Ok(before.bytes() == image.bytes())
}

fn was_full(word: &[u8]) -> bool {
    matches!(word, b"w" | b"a")
}

// Whether an image of a slot whose number was told has the message.
fn has_kept(alloc: Global, image: MemDisk, letters: &[u8], kept: Kept) -> Result<bool, NoMemory> {
    match letter_at(letters, kept.letter) {
        Some(letter) => has_letter(alloc, image, &letter),
        None => {
            drop(image);
            Ok(false)
        }
    }
}

// Whether an image of another slot is as it must be.
fn is_left(alloc: Global, image: MemDisk, word: &[u8], letters: &[u8]) -> Result<bool, NoMemory> {
    if was_full(word) {
        let stayed = has_stayed(alloc, &image, word);
        drop(image);
        return stayed;
    }
    has_any(alloc, image, letters)
}

// Whether an image of a slot is as it must be. No message is kept where one stood.
fn is_right(
    alloc: Global,
    image: MemDisk,
    word: &[u8],
    letters: &[u8],
    kept: Option<Kept>,
) -> Result<bool, NoMemory> {
    match kept {
        Some(_) if was_full(word) => {
            drop(image);
            Ok(false)
        }
        Some(kept) => has_kept(alloc, image, letters, kept),
        None => is_left(alloc, image, word, letters),
    }
}

// Whether the images that the number picks are, each message that was told as kept in a slot of its own.
fn are_right(
    alloc: Global,
    slots: &[u8],
    letters: &[u8],
    all: &[Kept],
    disks: Vec<MemDisk>,
    pick: u64,
) -> Result<bool, NoMemory> {
    let mut words = slots.split(|byte| *byte == b',');
    let mut number = 0u64;
    let mut found = 0usize;
    for disk in disks {
        let kept = kept_in(all, number);
        let word = words.next().unwrap_or(b"");
        if !is_right(alloc, disk.crash(pick)?, word, letters, kept)? {
            return Ok(false);
        }
        if kept.is_some() {
            found = found.saturating_add(1);
        }
        number = number.saturating_add(1);
    }
    Ok(found == all.len())
}

// The messages that the client was told to be kept, where the log has the line of each.
fn logged_by(alloc: Global, letters: &[u8], ended: &Ended) -> Result<Option<Vec<Kept>>, NoMemory> {
    let all = kept_of(alloc, ended.output.bytes())?;
    if !are_logged(alloc, letters, &all, ended.logs.bytes())? {
        return Ok(None);
    }
    Ok(Some(all))
}

/// Whether what a run left is as it must be, in the images that the number picks: each message that was told as kept stands in
/// its slot, and its line in the log; a slot that had a message has its bytes; and any other one is free, or has a message of
/// the client.
pub(crate) fn is_sound(
    alloc: Global,
    slots: &[u8],
    letters: &[u8],
    ended: Ended,
    pick: u64,
) -> Result<bool, NoMemory> {
    let all = logged_by(alloc, letters, &ended);
    let (disks, shown) = ended.into_left();
    drop(shown);
    match all? {
        Some(all) => are_right(alloc, slots, letters, &all, disks, pick),
        None => Ok(false),
    }
}
