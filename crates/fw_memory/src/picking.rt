//! The image of a medium that a number picks.
ghost use Rattle.std.specs.Prelude.{◌≡◌, ◌≤◌, ◌+◌, ◌%◌, length, get_or, IfOk};
ghost use Rattle.std.specs.List.{list_any};
ghost use Rattle.fw_disk.specs.Laws.{AreBytes};
ghost use Rattle.fw_disk.specs.Medium.{IsImage, is_within, is_written};
ghost use Rattle.fw_memory.specs.MemDiskView.{is_kept, loose_byte, picked, picked_byte, picked_len, torn_byte};

use crate::medium::HeldMedium;
use fw_types::NoMemory;
use std::alloc::Global;

/// Does nothing: the members of a slice of bytes are below 256.
pub(crate) fn are_bytes(bytes: &[u8])
    ensures { AreBytes bytes.now }
{
    let _ = bytes;
}

fn is_within(place: u64, range: &(u64, u64)) -> bool
    ensures { result ≡ is_within place range.now }
{
    range.0 <= place && place - range.0 < range.1
}

fn is_written(written: &[(u64, u64)], place: u64) -> bool
    ensures { result ≡ list_any (is_within place) written.now }
{
    written.iter().any(|range| is_within(place, range))
}

fn byte_or_zero(bytes: &[u8], place: u64) -> u8
    ensures { result ≡ get_or bytes.now place 0 }
{
    match bytes.get(place as usize) {
        Some(byte) => *byte,
        None => 0,
    }
}

fn is_kept(medium: &HeldMedium, place: u64) -> bool
    ensures { result ≡ is_kept medium.now place }
{
    let (least, _) = medium.lengths();
    place < least && !is_written(medium.written(), place)
}

fn torn_byte(medium: &HeldMedium, first: u64, place: u64) -> u8
    ensures { result ≡ torn_byte medium.now first place }
{
    if place < first {
        byte_or_zero(medium.seen(), place)
    } else {
        byte_or_zero(medium.synced(), place)
    }
}

fn counted_byte(rest: u64, place: u64) -> u8
    ensures { result ≡ (rest + place) % 256 }
{
    ((rest % 256 + place % 256) % 256) as u8
}

fn loose_byte(medium: &HeldMedium, pick: u64, place: u64) -> u8
    ensures { result ≡ loose_byte medium.now pick place }
{
    if pick % 4 == 0 {
        byte_or_zero(medium.seen(), place)
    } else if pick % 4 == 1 {
        byte_or_zero(medium.synced(), place)
    } else if pick % 4 == 2 {
        torn_byte(medium, pick / 4, place)
    } else {
        counted_byte(pick / 4, place)
    }
}

fn picked_byte(medium: &HeldMedium, pick: u64, place: u64) -> u8
    ensures { result ≡ picked_byte medium.now pick place }
{
    if is_kept(medium, place) {
        byte_or_zero(medium.synced(), place)
    } else {
        loose_byte(medium, pick, place)
    }
}

fn picked_len(medium: &HeldMedium, pick: u64) -> u64
    requires { IsImage medium.now medium.now.seen }
    ensures { result ≡ picked_len medium.now pick }
{
    let (least, greatest) = medium.lengths();
    if pick == 0 {
        return medium.seen().len() as u64;
    }
    let more = greatest - least;
    if more == u64::MAX {
        return pick / 4;
    }
    least + pick / 4 % (more + 1)
}

/// The image that a number picks.
#[tactic(auto, using(crate::proofs::MemDiskLemmas::picked_next))]
pub(crate) fn picked(alloc: Global, medium: &HeldMedium, pick: u64) -> Result<Vec<u8>, NoMemory>
    requires { IsImage medium.now medium.now.seen }
    ensures is { IfOk result (λ bytes. bytes.items ≡ picked medium.now pick) }
    ensures image { IfOk result (λ bytes. IsImage medium.now bytes.items) }
{
    are_bytes(medium.synced());
    let len = picked_len(medium, pick);
    let mut bytes = Vec::new(alloc);
    for place in 0..len {
        bytes.push(picked_byte(medium, pick, place))?;
    }
    Ok(bytes)
}
