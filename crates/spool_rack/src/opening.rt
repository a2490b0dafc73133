//! Opening the slots of a rack.
ghost use Rattle.std.specs.Prelude.{◌≡◌, ◌+◌, ◌≤◌, [], ◌∷◌, ◌++◌, length, map, IfOk, IfErr};
ghost use Rattle.spool_slots.specs.Opened.{disk_of};
ghost use Rattle.spool_rack.specs.Opening.{AreSlotsOf, CameBack};

use crate::queue::Queue;
use fw_disk::Disk;
use spool_slots::{Opened, SlotWhy, open};
use std::alloc::Global;

/// Why a rack wasn't opened: the place of the disk whose slot stopped it, and the cause. All disks come back, in order.
#[derive(Drop)]
pub struct RackFault<D: Disk> {
    pub disks: Vec<D>,
    pub slot: u32,
    pub why: SlotWhy,
}

// The disk of a slot.
fn disk_back<D: Disk>(slot: Opened<D>) -> D
    ensures { D.disk_view result ≡ disk_of slot }
{
    match slot {
        Opened::Free(free) => free.into_disk(),
        Opened::Full(full) => full.into_disk(),
        Opened::Aside(aside) => aside.into_disk(),
    }
}

// The disks of the slots that were opened, in front of the others.
#[tactic(auto, using(crate::proofs::OpeningLemmas::back_first, crate::proofs::OpeningLemmas::one_back, crate::proofs::OpeningLemmas::back_room, crate::proofs::OpeningLemmas::back_less, crate::proofs::OpeningLemmas::all_back))]
fn give_back<D: Disk>(found: Queue<Opened<D>>, rest: Queue<D>) -> Vec<D>
    requires { length found.items + length rest.items ≤ rest.room }
    ensures { map D.disk_view result.items ≡ map disk_of found.items ++ map D.disk_view rest.items }
{
    let mut found = found;
    let mut rest = rest;
    while let Some(slot) = found.pop_back() {
        rest.push_front(disk_back(slot));
    }
    rest.into_vec()
}

/// Opens the slots of all disks. The first that isn't opened stops it.
pub(crate) fn open_all<D: Disk>(
    alloc: Global,
    disks: Vec<D>,
    found: Queue<Opened<D>>,
) -> Result<Queue<Opened<D>>, RackFault<D>>
    requires few { length disks.items ≤ 64 }
    requires none { found.items ≡ [] }
    requires room { length disks.items ≤ found.room }
    ensures ok { IfOk result (λ all. AreSlotsOf D 0 (map D.disk_view disks.items) all.items) }
    ensures err { IfErr result (λ fault.
        CameBack D 0 fault.slot fault.why (map D.disk_view disks.items) (map D.disk_view fault.disks.items)) }
{
    let mut rest = Queue::of(disks);
    let mut found = found;
    let mut number = 0;
    while let Some(disk) = rest.pop() {
        match open(alloc, number, disk) {
            Ok(slot) => found.push(slot),
            Err((broken, why)) => {
                rest.push_front(broken.into_disk());
                return Err(RackFault {
                    disks: give_back(found, rest),
                    slot: number,
                    why,
                });
            }
        }
        number += 1;
    }
    Ok(found)
}
