//! Which calls of a device fail.

use crate::plan::Plan;
use format_of_rows::{Part, Times};
use fw_memory::Calls;
use fw_types::NoMemory;
use std::alloc::Global;

/// So many bytes fit into a sink, where nothing else is said.
pub(crate) const ROOM: usize = 16_384;

fn listed(alloc: Global, told: &[u64], more: Option<u64>) -> Result<Calls, NoMemory> {
    let mut numbers = Vec::from_slice(alloc, told)?;
    if let Some(number) = more {
        numbers.push(number)?;
    }
    Calls::of(alloc, &numbers)
}

/// The calls at which the part fails.
pub(crate) fn calls_of(plan: &Plan, part: Part) -> Result<Calls, NoMemory> {
    let more = if plan.breaks(part) {
        Some(plan.broken.at)
    } else {
        None
    };
    match plan.row.trial.times(part) {
        Some(Times::From(first)) => Ok(Calls::onward(*first)),
        Some(Times::At(numbers)) => listed(plan.alloc, numbers, more),
        None => listed(plan.alloc, &[], more),
    }
}

fn bytes_of(count: u64) -> usize {
    match usize::try_from(count) {
        Ok(count) => count.min(ROOM),
        Err(_) => ROOM,
    }
}

/// For how many bytes there is room.
pub(crate) fn room_of(plan: &Plan, part: Part) -> usize {
    if plan.breaks(part) {
        return bytes_of(plan.broken.at);
    }
    match plan.row.trial.times(part) {
        Some(Times::At(counts)) => match counts.first() {
            Some(count) => bytes_of(*count),
            None => 0,
        },
        _ => ROOM,
    }
}
