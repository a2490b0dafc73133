ghost use Rattle.std.specs.Prelude.{◌≡◌};

use crate::lanes::Lanes;
use crate::tally::Tally;
use fw_disk::Disk;
use std::marker::Model;

/// Knows what its seats put. Contracts see it as four lists and three counts, and as which pool it is of.
#[derive(Drop)]
pub struct PoolPass<D: Disk> {
    pub(crate) lanes: Lanes<D>,
    pub(crate) tally: Tally<D>,
    pub(crate) breaks: u64,
    // Whether a pool was closed with it.
    pub(crate) is_closed: bool,
}

impl<D: Disk> Model for PoolPass<D> {
    ghost use Rattle.std.specs.Prelude.{◌≡◌, []};
    ghost use Rattle.spool_pool.specs.Known.{PassView};

    ghost Value = { PassView };

    ghost use Rattle.spool_pool.specs.Account.{IsSoundUnless, pass_of};

    ghost view = { λ p. pass_of p.is_closed p.lanes p.tally p.breaks };

    ghost invariant = { λ p. IsSoundUnless p.is_closed p.lanes p.tally × (p.tally.out ≡ []) };
}
