//! Runs in which each device fails at each of its calls.

use crate::mail::asked::Asked;
use crate::mail::breaking::{Broken, Part};
use crate::mail::images::is_sound;
use crate::mail::running::run_over;
use fw_types::NoMemory;
use lines_of_rows::{Told, add, add_number, cut};
use std::alloc::Global;
use std::thread::Threads;

/// What the client says and what it is told are failed at so many calls, which are more than they get.
const CALLS: u64 = 20;

/// The log and the files are failed at so many calls, which are more than they get; and at so many nothing comes of the client.
const FEW_CALLS: u64 = 8;

/// Each disk is failed at so many calls, which are more than it gets where no slot is used again.
pub(crate) const DISK_CALLS: u64 = 9;

/// So many images of each disk are looked at where a disk fails from a call on.
pub(crate) const IMAGES: u64 = 4;

/// The number, below 16, that picks an image where a call fails: those of a call are one of each kind that `MemDisk::crash`
/// tells apart, and those of the next call are others.
pub(crate) fn pick_of(at: u64, image: u64) -> u64 {
    at.wrapping_add(image.wrapping_mul(5)) % 16
}

// Whether a run is as it must be, whatever failed, in these images.
fn stands<H: Threads + Sync>(
    threads: &H,
    alloc: Global,
    asked: Asked,
    letters: &[u8],
    broken: Broken,
    pick: u64,
) -> Result<bool, NoMemory> {
    match run_over(threads, alloc, asked, broken, Vec::new(alloc))? {
        Some(ended) => is_sound(alloc, asked.slots, letters, ended, pick),
        None => Ok(false),
    }
}

/// Places at which a slot is torn where a disk fails from a call on: within the head, the length, the recipients and the body of a
/// message of the rows.
const TEARS: [u64; 5] = [4, 13, 20, 25, 29];

// The number that picks the image which is as read below this place, and synced from there on.
fn tear_at(place: u64) -> u64 {
    place.saturating_mul(4).saturating_add(2)
}

// Whether it is in each image that is torn.
fn stands_torn<H: Threads + Sync>(
    threads: &H,
    alloc: Global,
    asked: Asked,
    letters: &[u8],
    broken: Broken,
) -> Result<bool, NoMemory> {
    for place in TEARS {
        if !stands(threads, alloc, asked, letters, broken, tear_at(place))? {
            return Ok(false);
        }
    }
    Ok(true)
}

// Whether it is in each image that is looked at.
fn stands_whole<H: Threads + Sync>(
    threads: &H,
    alloc: Global,
    asked: Asked,
    letters: &[u8],
    broken: Broken,
) -> Result<bool, NoMemory> {
    for image in 0..IMAGES {
        let pick = pick_of(broken.at, image);
        if !stands(threads, alloc, asked, letters, broken, pick)? {
            return Ok(false);
        }
    }
    stands_torn(threads, alloc, asked, letters, broken)
}

// How many of the runs in which a disk fails from a call on aren't.
fn unsound_onward<H: Threads + Sync>(
    threads: &H,
    alloc: Global,
    asked: Asked,
    letters: &[u8],
    slot: u64,
) -> Result<u64, NoMemory> {
    let part = Part::DiskOnward(slot);
    let mut count = 0u64;
    for at in 0..DISK_CALLS {
        if !stands_whole(threads, alloc, asked, letters, Broken { part, at })? {
            count = count.saturating_add(1);
        }
    }
    Ok(count)
}

// How many of the runs in which a part fails, at one of so many calls, aren't in one image.
fn unsound<H: Threads + Sync>(
    threads: &H,
    alloc: Global,
    asked: Asked,
    letters: &[u8],
    part: Part,
    calls: u64,
) -> Result<u64, NoMemory> {
    let mut count = 0u64;
    for at in 0..calls {
        let pick = pick_of(at, 0);
        if !stands(threads, alloc, asked, letters, Broken { part, at }, pick)? {
            count = count.saturating_add(1);
        }
    }
    Ok(count)
}

fn unsound_parts<H: Threads + Sync>(
    threads: &H,
    alloc: Global,
    asked: Asked,
    letters: &[u8],
    parts: &[Part],
    calls: u64,
) -> Result<u64, NoMemory> {
    let mut count = 0u64;
    for part in parts {
        count = count.saturating_add(unsound(threads, alloc, asked, letters, *part, calls)?);
    }
    Ok(count)
}

// How many of all runs in which another part than a disk fails aren't.
fn unsound_others<H: Threads + Sync>(
    threads: &H,
    alloc: Global,
    asked: Asked,
    letters: &[u8],
) -> Result<u64, NoMemory> {
    let client = [Part::Client, Part::Output];
    let of_client = unsound_parts(threads, alloc, asked, letters, &client, CALLS)?;
    let other = [Part::Idle, Part::Log, Part::Table];
    let of_others = unsound_parts(threads, alloc, asked, letters, &other, FEW_CALLS)?;
    Ok(of_client.saturating_add(of_others))
}

/// How many slots stand between the commas.
pub(crate) fn count_slots(slots: &[u8]) -> u64 {
    let mut count = 1u64;
    for byte in slots {
        if *byte == b',' {
            count = count.saturating_add(1);
        }
    }
    count
}

fn unsound_disks<H: Threads + Sync>(
    threads: &H,
    alloc: Global,
    asked: Asked,
    letters: &[u8],
) -> Result<u64, NoMemory> {
    let mut count = 0u64;
    for slot in 0..count_slots(asked.slots).min(64) {
        let part = Part::Disk(slot);
        let once = unsound(threads, alloc, asked, letters, part, DISK_CALLS)?;
        let onward = unsound_onward(threads, alloc, asked, letters, slot)?;
        count = count.saturating_add(once).saturating_add(onward);
    }
    Ok(count)
}

/// `sweep MESSAGES!WORDS!TABLE!SLOTS!CLIENT => N unsound`: how many of the runs, in which one device fails at one call, or a
/// disk from a call on, aren't as they must be in one of the images of the slots that are looked at. `MESSAGES` are what the
/// client sends, as `letters.rt` says.
pub(crate) fn tell_sweep<H: Threads + Sync>(
    threads: &H,
    alloc: Global,
    asked: &[u8],
    out: &mut Told,
) -> Result<(), NoMemory> {
    let (letters, rest) = cut(asked, b'!');
    let asked = Asked::of(rest);
    let disks = unsound_disks(threads, alloc, asked, letters)?;
    let others = unsound_others(threads, alloc, asked, letters)?;
    add_number(out, disks.saturating_add(others));
    add(out, b" unsound");
    Ok(())
}
