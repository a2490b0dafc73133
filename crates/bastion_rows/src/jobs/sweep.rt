//! Runs in which each disk fails at each of its calls.

use crate::jobs::running::run_on;
use crate::world::Ended;
use fw_memory::{Calls, MemDisk};
use fw_types::{NoMemory, Octets};
use lines_of_rows::{Told, add_number, cut_word, number_of};
use std::alloc::Global;
use std::thread::Threads;

/// So often a disk is called.
const CALLS: u64 = 3;

/// What each disk holds at first.
const BEFORE: &[u8] = &[1, 2, 3];

/// What a free slot holds.
const FREE: &[u8] = &[0, 0];

fn calls_at(alloc: Global, fails: bool, call: u64) -> Result<Calls, NoMemory> {
    if fails {
        return Calls::of(alloc, &[call]);
    }
    Ok(Calls::none())
}

// So many disks, of which one fails at a call.
fn disks_with(
    alloc: Global,
    count: u64,
    failing: u64,
    call: u64,
) -> Result<Vec<MemDisk>, NoMemory> {
    let mut disks = Vec::new(alloc);
    for number in 0..count {
        let bytes = Octets::copy(alloc, BEFORE)?;
        let fails = calls_at(alloc, number == failing, call)?;
        disks.push(MemDisk::new(alloc, bytes, fails))?;
    }
    Ok(disks)
}

// The disks before the one that failed are free slots, and those behind it hold what they held.
fn are_as_told(disks: &[MemDisk], failing: u64) -> bool {
    let mut number = 0u64;
    for disk in disks {
        if number < failing && disk.bytes() != FREE {
            return false;
        }
        if failing < number && disk.bytes() != BEFORE {
            return false;
        }
        number = number.saturating_add(1);
    }
    true
}

// Nothing was printed, and the log names the disk.
fn is_told(alloc: Global, ended: &Ended, failing: u64) -> Result<bool, NoMemory> {
    let line = format!(in alloc; "fault outside disk {failing}\n")?;
    Ok(
        ended.status == 4
            && ended.output.bytes().is_empty()
            && ended.logs.bytes() == line.as_bytes(),
    )
}

fn is_right<H: Threads + Sync>(
    threads: &H,
    alloc: Global,
    count: u64,
    failing: u64,
    call: u64,
    words: &[u8],
) -> Result<bool, NoMemory> {
    let disks = disks_with(alloc, count, failing, call)?;
    let ended = run_on(threads, alloc, words, disks, Calls::none())?;
    let told = is_told(alloc, &ended, failing)?;
    Ok(told && are_as_told(&ended.disks, failing))
}

/// `sweep COUNT WORDS => RIGHT`: with so many disks, each fails at each of its calls in a run of its own. So many of these
/// runs printed nothing, named the disk, and left the disks before it free and those behind it as they were.
pub(crate) fn tell_sweep<H: Threads + Sync>(
    threads: &H,
    alloc: Global,
    asked: &[u8],
    out: &mut Told,
) -> Result<(), NoMemory> {
    let (count, words) = cut_word(asked);
    let count = number_of(count);
    let mut right = 0u64;
    for failing in 0..count {
        for call in 0..CALLS {
            if is_right(threads, alloc, count, failing, call, words)? {
                right = right.saturating_add(1);
            }
        }
    }
    add_number(out, right);
    Ok(())
}
