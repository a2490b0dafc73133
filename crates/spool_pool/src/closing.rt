//! Closing a pool into a rack.
ghost use Rattle.std.specs.Prelude.{◌≡◌, ◌*◌, ◌^◌, ◌≤◌};
ghost use Rattle.spool_rack.specs.Store.{Queues};
ghost use Rattle.spool_rack.specs.Stock.{no_slots, rack_of};
ghost use Rattle.spool_pool.specs.Ends.{IsSettled};
ghost use Rattle.spool_pool.specs.Known.{IsPassOf, closed};

use crate::draining::drain;
use crate::lanes::Lanes;
use crate::pass::PoolPass;
use crate::pool::Pool;
use crate::spare::Spare;
use fw_disk::Disk;
use spool_rack::{Rack, Stock};
use std::sync::Wait;
use std::thread;

// A stock with room for three queues of so many. That it is the room of these queues is looked up, since a lock shows
// nothing of what it holds; were it another's, this would wait.
fn bring<D: Disk, R: Wait>(rt: &R, spare: Spare<D>, room: usize) -> Stock<D>
    ensures none { result.queues ≡ no_slots }
    ensures room { room * 3 ≤ result.room }
{
    if spare.room() == room {
        return spare.into_stock();
    }
    for _ in rt.forever() {
        thread::yield_now();
    }
    unreachable!()
}

impl<D: Disk> Pool<D> {
    /// A rack of slots that stand in the pool, of all if the pass has all parts, and the pass, which is of no pool any more. It waits.
    #[tactic(auto, using(crate::proofs::Passes::opened, crate::proofs::Passes::closed_pass, crate::proofs::Settles::emptied))]
    pub fn close<R: Wait>(self, rt: &R, pass: PoolPass<D>) -> (Rack<D>, PoolPass<D>)
        requires { IsPassOf self pass }
        ensures pass { result.1 ≡ closed pass }
        ensures settled { (q : Queues) × (result.0 ≡ rack_of q) × (pass.handed.parts ≡ 2 ^ 64 → IsSettled pass.handed
            q) }
    {
        let Pool {
            free,
            full,
            shelf,
            spare,
            room,
        } = self;
        let PoolPass {
            lanes,
            tally,
            breaks,
            is_closed: _,
        } = pass;
        let Lanes {
            free: mut free_pass,
            full: mut full_pass,
            shelf: mut shelf_pass,
        } = lanes;
        let mut stock = bring(rt, spare.into_inner(), room);
        drain(rt, &free, &mut free_pass, room, &mut stock);
        drain(rt, &full, &mut full_pass, room, &mut stock);
        drain(rt, &shelf, &mut shelf_pass, room, &mut stock);
        let pass = PoolPass {
            lanes: Lanes {
                free: free_pass,
                full: full_pass,
                shelf: shelf_pass,
            },
            tally,
            breaks,
            is_closed: true,
        };
        (stock.into_rack(), pass)
    }
}
