//! The end of a table.
ghost use Rattle.std.specs.Prelude.{◌≡◌, length};
ghost use Rattle.turn_lock.specs.declared.view.Hold.TheVariants.{Loaded};
ghost use Rattle.turn_lock.specs.Rest.{IsLock};
ghost use Rattle.turn_lock.specs.Steps.{Ends};

use crate::StandsFor;
use crate::rule::Law;
use crate::view::{Place, View};
use atomic_table::Table;
use std::alloc::Global;
use std::snapshot::Snapshot;

/// A table with its memory.
pub(crate) type Whole<V> = Table<
    Option<V>,
    View<<V as StandsFor>::Entry, <V as StandsFor>::Origin>,
    Snapshot<V>,
    Law,
    Global,
>;

// Frees a table, whose turn this seat has.
pub(crate) fn end<V: StandsFor>(table: Whole<V>, seat: Place<V>)
    requires own { seat.table_id ≡ table.shared.table_id }
    requires lock { IsLock table.shared.table_id }
    requires hold { seat.me.0.hold ≡ Loaded }
    ensures told { Ends (length (V.entries table.shared.key.value)) seat.me.0 }
{
    let mut closed = table.close_with(seat);
    let _ = closed.take(0);
    closed.free();
}
