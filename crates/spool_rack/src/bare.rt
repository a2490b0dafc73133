//! The memory of a rack.
ghost use Rattle.std.specs.Prelude.{◌≡◌, [], IfOk};
ghost use Rattle.spool_rack.specs.Shelving.{IsBare};
ghost use Rattle.spool_rack.specs.Room.{IsSpare};

use crate::closing::Held;
use crate::loans::Loans;
use crate::queue::Queue;
use crate::shelving::Shelves;
use fw_disk::Disk;
use fw_types::NoMemory;
use spool_slots::{Broken, Opened};
use std::alloc::Global;

/// What a rack is made of before it has slots, and a queue for those that are opened.
pub(crate) struct Bare<D: Disk> {
    pub(crate) shelves: Shelves<D>,
    pub(crate) broken: Queue<Broken<D>>,
    pub(crate) out: Loans,
    pub(crate) found: Queue<Opened<D>>,
    pub(crate) held: Queue<Held<D>>,
    pub(crate) home: Queue<D>,
}

/// Takes the memory of a rack for so many slots.
pub(crate) fn make_room<D: Disk>(alloc: Global, room: usize) -> Result<Bare<D>, NoMemory>
    ensures queues { IfOk result (λ bare. IsBare room bare.shelves bare.broken bare.out) }
    ensures found { IfOk result (λ bare. bare.found ≡ record { items = []; room = room }) }
    ensures spare { IfOk result (λ bare. IsSpare bare.held bare.home room) }
{
    Ok(Bare {
        shelves: Shelves {
            free: Queue::with_room(alloc, room)?,
            full: Queue::with_room(alloc, room)?,
            aside: Queue::with_room(alloc, room)?,
        },
        broken: Queue::with_room(alloc, room)?,
        out: Loans::with_room(alloc, room)?,
        found: Queue::with_room(alloc, room)?,
        held: Queue::with_room(alloc, room)?,
        home: Queue::with_room(alloc, room)?,
    })
}
