//! Making a pool of a rack.
ghost use Rattle.std.specs.Prelude.{◌≡◌, ◌^◌, ◌<◌, Some, map, IfErr, IfOk};
ghost use Rattle.shared_queue.specs.Moves.{HasAll};
ghost use Rattle.spool_pool.specs.Known.{bare};
ghost use Rattle.spool_pool.specs.Opening.{IsBegun, IsFresh, begun_all};
ghost use Rattle.spool_pool.specs.Shelf.{is_aside, is_broken};

use crate::lanes::Lanes;
use crate::letter::Letter;
use crate::pass::PoolPass;
use crate::pool::Pool;
use crate::shelved::Shelved;
use crate::spare::Spare;
use crate::tally::Tally;
use fw_disk::Disk;
use fw_types::NoMemory;
use shared_queue::{QueuePass, SharedQueue};
use spool_rack::{Free, Rack, RackSlots};
use std::alloc::Global;
use std::sync::{Mutex, Wait};

// The queues, empty and with room for so many, and the room for a rack of all that they can hold.
#[tactic(auto, using(crate::proofs::Begins::fresh_lanes))]
fn make_room<D: Disk>(alloc: Global, room: usize) -> Result<(Pool<D>, Lanes<D>), NoMemory>
    requires { 0 < room }
    ensures { IfOk result (λ made. IsFresh made.0.home made.1) }
{
    let spare = Mutex::new(Spare::with_room(alloc, room)?);
    let (free, free_pass) = SharedQueue::new(alloc, room)?;
    let (full, full_pass) = SharedQueue::new(alloc, room)?;
    let (shelf, shelf_pass) = SharedQueue::new(alloc, room)?;
    Ok((
        Pool {
            free,
            full,
            shelf,
            spare,
            room,
        },
        Lanes {
            free: free_pass,
            full: full_pass,
            shelf: shelf_pass,
        },
    ))
}

#[tactic(auto, using(crate::proofs::Begins::begin_first, crate::proofs::Begins::begin_next, crate::proofs::Begins::begin_last))]
fn begin_free<D: Disk, R: Wait>(
    rt: &R,
    queue: &SharedQueue<Free<D>>,
    pass: &mut QueuePass<Free<D>>,
    slots: &mut RackSlots<D>,
)
    requires home { pass.old.home ≡ queue.now.home }
    requires all { HasAll pass.old }
    ensures pass { pass.new ≡ begun_all slots.old.free pass.old }
    ensures slots { slots.new ≡ record slots.old { free = slots.new.free } }
{
    while let Some(slot) = slots.next_free() {
        queue.begin(rt, pass, slot);
    }
}

#[tactic(auto, using(crate::proofs::Begins::begin_first, crate::proofs::Begins::begin_next, crate::proofs::Begins::begin_last))]
fn begin_full<D: Disk, R: Wait>(
    rt: &R,
    queue: &SharedQueue<Letter<D>>,
    pass: &mut QueuePass<Letter<D>>,
    slots: &mut RackSlots<D>,
)
    requires home { pass.old.home ≡ queue.now.home }
    requires all { HasAll pass.old }
    ensures pass { pass.new ≡ begun_all slots.old.full pass.old }
    ensures slots { slots.new ≡ record slots.old { full = slots.new.full } }
{
    while let Some(slot) = slots.next_full() {
        queue.begin(rt, pass, Letter::of(slot));
    }
}

#[tactic(auto, using(crate::proofs::Begins::begin_first, crate::proofs::Begins::begin_next, crate::proofs::Begins::begin_last))]
fn begin_aside<D: Disk, R: Wait>(
    rt: &R,
    queue: &SharedQueue<Shelved<D>>,
    pass: &mut QueuePass<Shelved<D>>,
    slots: &mut RackSlots<D>,
)
    requires home { pass.old.home ≡ queue.now.home }
    requires all { HasAll pass.old }
    ensures pass { pass.new ≡ begun_all (map is_aside slots.old.aside) pass.old }
    ensures slots { slots.new ≡ record slots.old { aside = slots.new.aside } }
{
    while let Some(slot) = slots.next_aside() {
        queue.begin(rt, pass, Shelved::aside(slot));
    }
}

#[tactic(auto, using(crate::proofs::Begins::begin_first, crate::proofs::Begins::begin_next, crate::proofs::Begins::begin_last))]
fn begin_broken<D: Disk, R: Wait>(
    rt: &R,
    queue: &SharedQueue<Shelved<D>>,
    pass: &mut QueuePass<Shelved<D>>,
    slots: &mut RackSlots<D>,
)
    requires home { pass.old.home ≡ queue.now.home }
    requires all { HasAll pass.old }
    ensures pass { pass.new ≡ begun_all (map is_broken slots.old.broken) pass.old }
    ensures slots { slots.new ≡ record slots.old { broken = slots.new.broken } }
{
    while let Some(slot) = slots.next_broken() {
        queue.begin(rt, pass, Shelved::broken(slot));
    }
}

// Puts the slots of a rack into the queues, each in its order.
#[tactic(auto, using(crate::proofs::Begins::begun, crate::proofs::Passes::homes_each))]
fn begin<D: Disk, R: Wait>(rt: &R, pool: &Pool<D>, lanes: Lanes<D>, slots: RackSlots<D>) -> Lanes<D>
    requires { IsFresh pool.now.home lanes }
    ensures { IsBegun pool.now.home slots result }
{
    let mut slots = slots;
    let Lanes {
        mut free,
        mut full,
        mut shelf,
    } = lanes;
    begin_free(rt, &pool.free, &mut free, &mut slots);
    begin_full(rt, &pool.full, &mut full, &mut slots);
    begin_aside(rt, &pool.shelf, &mut shelf, &mut slots);
    begin_broken(rt, &pool.shelf, &mut shelf, &mut slots);
    Lanes { free, full, shelf }
}

impl<D: Disk> Pool<D> {
    /// A pool of the slots that stand in a rack, and the pass with all parts. It waits while a queue is full.
    #[tactic(auto, using(crate::proofs::Begins::begun_kept, crate::proofs::Begins::begun_pass, crate::proofs::Begins::begun_whole))]
    pub fn new<R: Wait>(
        rt: &R,
        alloc: Global,
        rack: Rack<D>,
    ) -> Result<(Pool<D>, PoolPass<D>), (Rack<D>, NoMemory)>
        ensures pass { IfOk result (λ made. rack.queues ≡ Some made.1.handed.began) }
        ensures whole { IfOk result (λ made. made.1 ≡ bare made.0.home (2 ^ 64) made.1.handed.began) }
        ensures back { IfErr result (λ fault. fault.0 ≡ rack) }
    {
        let room = rack.room().max(1);
        match make_room(alloc, room) {
            Ok((pool, lanes)) => {
                let lanes = begin(rt, &pool, lanes, rack.into_slots());
                let pass = PoolPass {
                    lanes,
                    tally: Tally::none(),
                    breaks: 0,
                    is_closed: false,
                };
                Ok((pool, pass))
            }
            Err(NoMemory) => Err((rack, NoMemory)),
        }
    }
}
