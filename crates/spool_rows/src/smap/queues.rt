//! The full slots of a rack before and after a session.

use crate::smap::play::{Fails, hold_all, rack_of};
use crate::smap::tellings::{ending_name, fails_of};
use fw_memory::MemDisk;
use fw_types::NoMemory;
use lines_of_rows::{Told, add_number, add_word, cut_word, number_of};
use spool_rack::Rack;
use std::alloc::Global;

// The numbers of the slots in its queue of full ones, from the front on.
fn add_full(rack: Rack<MemDisk>, out: &mut Told) {
    let room = rack.room();
    let mut slots = rack.into_slots();
    for _ in 0..room {
        if let Some(full) = slots.next_full() {
            add_number(out, u64::from(full.number()));
            drop(full);
        }
    }
}

// Those of the rack before the session.
fn add_before(alloc: Global, slots: &[u8], out: &mut Told) -> Result<(), NoMemory> {
    if let Some(rack) = rack_of(alloc, slots, Fails::none())? {
        add_full(rack, out);
    }
    Ok(())
}

/// `put DEVICE CALL SLOTS BYTES RCPTS CLIENT => ENDING NUMBERS | NUMBERS`: how the session ends where the device fails as in `faults`, or
/// `none` does, and the full slots in the order of their queue, before it and after it. What was put is what the second list has more.
pub(crate) fn tell_put(alloc: Global, asked: &[u8], out: &mut Told) -> Result<(), NoMemory> {
    let (device, rest) = cut_word(asked);
    let (first, asked) = cut_word(rest);
    match hold_all(alloc, asked, fails_of(device, number_of(first)))? {
        Some(held) => {
            add_word(out, ending_name(held.ending));
            add_before(alloc, cut_word(asked).0, out)?;
            add_word(out, b"|");
            add_full(held.rack, out);
        }
        None => add_word(out, b"no rack"),
    }
    Ok(())
}
