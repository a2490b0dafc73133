//! A pool of slots, from which threads take and to which they put back.
//!
//! A [`Pool`] is made of a rack. A thread takes and puts slots with a [`PoolSeat`], which is a [`MailStore`], and which is
//! made of a [`PoolPass`]. A pass keeps, for contracts alone, what its seats put: four lists (`specs/Known.antt`). Passes
//! are split off one another and met again, and the pool is closed into a rack, of which the pass that has met all others
//! says that no message was lost (`specs/Ends.antt`).
#![tactic(auto)]

mod closing;
mod draining;
mod lanes;
mod letter;
mod opening;
mod pass;
mod pool;
mod seat;
mod shelved;
mod spare;
mod tally;

pub use pass::PoolPass;
pub use pool::Pool;
pub use seat::PoolSeat;
pub use spool_rack::{MailStore, SlotStore};
