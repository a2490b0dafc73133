//! What holds of all stores, and of all spools.
ghost use Rattle.std.specs.Prelude.{[], ◌∷◌, false};
ghost use Rattle.spool_slots.specs.States.{FullView};
ghost use Rattle.spool_rack.specs.Store.{StoreView, PutGrew, WasTaken, put_full};

pub use spool_law::laws::{a_message_can_stand, calls_are_events, stands};

/// A slot that wasn't taken full and is put full stands at the back of the full queue, where the store tells its queues,
/// and at the end of the list of those put, where it keeps that list.
pub fn a_message_is_put_at_the_back()
    ensures { (slot : FullView) (s : StoreView) → WasTaken false slot.number s.out →
        PutGrew (slot ∷ []) s (put_full slot s) }
{}
