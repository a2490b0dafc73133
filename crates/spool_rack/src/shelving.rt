//! Putting the slots that were opened into their queues.
ghost use Rattle.std.specs.Prelude.{◌≡◌, ◌≤◌, ◌<◌, length};
ghost use Rattle.spool_rack.specs.Shelving.{HasSpace, IsShelved, AreReadable, shelved};

use crate::queue::Queue;
use fw_disk::Disk;
use spool_slots::{Aside, Free, Full, Opened};

/// The queues of slots that may be opened.
#[derive(Drop)]
pub(crate) struct Shelves<D: Disk> {
    pub(crate) free: Queue<Free<D>>,
    pub(crate) full: Queue<Full<D>>,
    pub(crate) aside: Queue<Aside<D>>,
}

// Puts a slot at the back of the queue for what it was read as.
fn shelve_one<D: Disk>(shelves: &mut Shelves<D>, slot: Opened<D>)
    requires { HasSpace 1 shelves.old }
    ensures { shelves.new ≡ shelved slot shelves.old }
{
    match slot {
        Opened::Free(slot) => shelves.free.push(slot),
        Opened::Full(slot) => shelves.full.push(slot),
        Opened::Aside(slot) => shelves.aside.push(slot),
    }
}

/// Puts each slot at the back of the queue for what it was read as.
#[tactic(auto, using(crate::proofs::ShelfLemmas::shelf_first, crate::proofs::ShelfLemmas::shelf_space, crate::proofs::ShelfLemmas::shelf_next, crate::proofs::ShelfLemmas::shelf_less, crate::proofs::ShelfLemmas::shelf_last))]
pub(crate) fn shelve<D: Disk>(shelves: &mut Shelves<D>, found: Queue<Opened<D>>)
    requires readable { AreReadable found.items }
    requires space { HasSpace (length found.items) shelves.old }
    ensures { IsShelved found.items shelves.old shelves.new }
{
    let mut found = found;
    while let Some(slot) = found.pop() {
        shelve_one(shelves, slot);
    }
}
