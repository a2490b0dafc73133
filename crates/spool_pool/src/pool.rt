ghost use Rattle.std.specs.Prelude.{◌≡◌, ◌<◌, Ok};
ghost use Rattle.spool_pool.specs.Account.{AreEven, all_met, homes_of, one_less, one_off};
ghost use Rattle.spool_pool.specs.Known.{IsPassOf, less_one, met, split_off};

use crate::lanes::Lanes;
use crate::letter::Letter;
use crate::pass::PoolPass;
use crate::shelved::Shelved;
use crate::spare::Spare;
use crate::tally::Tally;
use fw_disk::Disk;
use fw_types::NoMemory;
use shared_queue::SharedQueue;
use spool_rack::Free;
use std::marker::Model;
use std::sync::Mutex;

/// Slots that threads share. Contracts see it as which pool it is.
#[derive(Drop)]
pub struct Pool<D: Disk> {
    pub(crate) free: SharedQueue<Free<D>>,
    pub(crate) full: SharedQueue<Letter<D>>,
    pub(crate) shelf: SharedQueue<Shelved<D>>,
    // Where the slots go when the pool is closed.
    pub(crate) spare: Mutex<Spare<D>>,
    pub(crate) room: usize,
}

impl<D: Disk> Model for Pool<D> {
    ghost use Rattle.std.specs.Prelude.{◌≡◌, [], ◌∷◌};
    ghost use Rattle.spool_pool.specs.Known.{PoolView};

    ghost Value = { PoolView };

    ghost view = { λ p. record { home = p.free.home ∷ p.full.home ∷ p.shelf.home ∷ [] } };

    ghost invariant = { λ p. (p.free.room ≡ p.room) × (p.full.room ≡ p.room) × (p.shelf.room ≡ p.room) };
}

impl<D: Disk> Pool<D> {
    /// Gives one part of a pass to a new one, which has put nothing. It takes no memory.
    #[tactic(auto, using(crate::proofs::Passes::opened, crate::proofs::Passes::less_pass, crate::proofs::Passes::off_pass, crate::proofs::Passes::kept_less, crate::proofs::Passes::kept_off))]
    pub fn split(&self, pass: &mut PoolPass<D>) -> Result<PoolPass<D>, NoMemory>
        requires pass { IsPassOf self.now pass.old }
        requires parts { 1 < pass.old.handed.parts }
        ensures old { pass.new ≡ less_one pass.old }
        ensures new { result ≡ Ok (split_off pass.old) }
    {
        let _ = &self.room;
        let lanes = self.split_lanes(&mut pass.lanes);
        Ok(PoolPass {
            lanes,
            tally: Tally::none(),
            breaks: 0,
            is_closed: false,
        })
    }

    /// The pass takes in the lists, counts and parts of another.
    #[tactic(auto, using(crate::proofs::Passes::opened, crate::proofs::Passes::met_pass, crate::proofs::Passes::kept_met))]
    pub fn meet(&self, pass: &mut PoolPass<D>, other: PoolPass<D>)
        requires pass { IsPassOf self.now pass.old }
        requires other { IsPassOf self.now other }
        ensures { pass.new ≡ met pass.old other }
    {
        let PoolPass {
            lanes,
            tally,
            breaks,
            is_closed: _,
        } = other;
        let _ = &self.room;
        self.meet_lanes(&mut pass.lanes, lanes);
        pass.tally = pass.tally.met(&tally);
        pass.breaks = pass.breaks.saturating_add(breaks);
    }

    #[tactic(auto, using(crate::proofs::Passes::homes_each))]
    fn split_lanes(&self, lanes: &mut Lanes<D>) -> Lanes<D>
        requires home { homes_of lanes.old ≡ self.now.home }
        requires even { AreEven lanes.old }
        requires parts { 1 < lanes.old.full.parts }
        ensures old { lanes.new ≡ one_less lanes.old }
        ensures new { result ≡ one_off lanes.old }
    {
        Lanes {
            free: self.free.split(&mut lanes.free),
            full: self.full.split(&mut lanes.full),
            shelf: self.shelf.split(&mut lanes.shelf),
        }
    }

    #[tactic(auto, using(crate::proofs::Passes::homes_each))]
    fn meet_lanes(&self, lanes: &mut Lanes<D>, other: Lanes<D>)
        requires home { homes_of lanes.old ≡ self.now.home }
        requires other { homes_of other ≡ self.now.home }
        requires even { AreEven lanes.old }
        ensures { lanes.new ≡ all_met lanes.old other }
    {
        let Lanes { free, full, shelf } = other;
        self.free.meet(&mut lanes.free, free);
        self.full.meet(&mut lanes.full, full);
        self.shelf.meet(&mut lanes.shelf, shelf);
    }
}
