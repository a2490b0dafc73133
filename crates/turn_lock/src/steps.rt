//! The steps of a turn, over the table.
ghost use Rattle.std.specs.Prelude.{◌≡◌, List, [], ◌∷◌, ◌++◌, length, None, Some};
ghost use Rattle.turn_lock.specs.declared.view.Hold.TheVariants.{Away, Loaded};
ghost use Rattle.turn_lock.specs.Rest.{IsLock, IsSame};
ghost use Rattle.turn_lock.specs.Steps.{AreTold, IsAhead, IsBack, IsOut, Takes};
ghost use Rattle.turn_lock.specs.Views.{entering, seeing, with_hold};

use crate::StandsFor;
use crate::plays::{Claim, Enter, Free, Load};
use crate::view::{Desk, Place};
use std::sync::Wait;

// The table's words: whose turn it is, and how long the list is.
pub(crate) const TURN: usize = 0;

pub(crate) const LENGTH: usize = 1;

// Waits for the turn.
fn claim<V: StandsFor, R: Wait>(rt: &R, desk: &Desk<V>, seat: &mut Place<V>)
    requires desk { (seat.old.table_id ≡ desk.now.table_id) × IsLock desk.now.table_id }
    ensures same { IsSame seat.old seat.new }
    ensures takes { Takes V.entries V.limit V.origin seat.old.me seat.new.me }
{
    for _ in rt.forever() {
        if desk.compare_exchange::<Claim>(seat, TURN, 0, 1) == 0 {
            return;
        }
        desk.park(rt, TURN, 1);
    }
    unreachable!()
}

// Waits for the turn, and takes the value out.
pub(crate) fn take_out<V: StandsFor, R: Wait>(rt: &R, desk: &Desk<V>, seat: &mut Place<V>) -> V
    requires desk { (seat.old.table_id ≡ desk.now.table_id) × IsLock desk.now.table_id }
    ensures same { IsSame seat.old seat.new }
    ensures out { IsOut V.entries V.limit V.origin result seat.old.me seat.new.me }
{
    claim(rt, desk, seat);
    let slot = desk.exchange(seat, 0, None);
    desk.load::<Load>(seat, LENGTH);
    match slot {
        Some(value) => value,
        None => unreachable!(),
    }
}

// Puts the value back into its slot.
fn fill<V: StandsFor>(desk: &Desk<V>, seat: &mut Place<V>, value: V)
    requires desk { (seat.old.table_id ≡ desk.now.table_id) × IsLock desk.now.table_id }
    requires empty { seat.old.me.1 ≡ (0, None) ∷ [] }
    ensures same { IsSame seat.old seat.new }
    ensures filled { seat.new.me ≡ (seat.old.me.0, (0, Some value) ∷ []) }
{
    match desk.exchange(seat, 0, Some(value)) {
        None => {}
        Some(_) => unreachable!(),
    }
}

// The list grows by the entry that the value in the slot has more.
fn enter<V: StandsFor>(desk: &Desk<V>, seat: &mut Place<V>)
    requires desk { (seat.old.table_id ≡ desk.now.table_id) × IsLock desk.now.table_id }
    requires ahead { (value : V) × IsAhead V.entries value seat.old.me }
    requires unspent { (origin : V.Origin) × (seat.old.me.0.origin ≡ Some origin) }
    ensures same { IsSame seat.old seat.new }
    ensures entered { (value : V) → seat.old.me.1 ≡ (0, Some value) ∷ [] → seat.new.me ≡ (entering seat.old.me.0 (V.entries value), seat.old.me.1) }
{
    desk.fetch_add::<Enter>(seat, LENGTH, 1);
}

// Gives the turn back.
fn free<V: StandsFor>(desk: &Desk<V>, seat: &mut Place<V>)
    requires desk { (seat.old.table_id ≡ desk.now.table_id) × IsLock desk.now.table_id }
    requires back { (value : V) × IsBack V.entries V.limit V.origin value seat.old.me }
    ensures same { IsSame seat.old seat.new }
    ensures freed { seat.new.me ≡ (with_hold seat.old.me.0 Away, []) }
{
    desk.swap::<Free>(seat, TURN, 0);
    desk.wake_one(TURN);
}

// Gives the turn back with the value as it was found.
pub(crate) fn give_back<V: StandsFor>(desk: &Desk<V>, seat: &mut Place<V>, value: V)
    requires desk { (seat.old.table_id ≡ desk.now.table_id) × IsLock desk.now.table_id }
    requires empty { seat.old.me.1 ≡ (0, None) ∷ [] }
    requires hold { seat.old.me.0.hold ≡ Loaded }
    requires list { V.entries value ≡ seat.old.me.0.seen }
    requires limit { V.limit value ≡ seat.old.me.0.limit }
    requires origin { seat.old.me.0.origin ≡ Some (V.origin value) }
    ensures same { IsSame seat.old seat.new }
    ensures freed { seat.new.me ≡ (with_hold seat.old.me.0 Away, []) }
{
    fill(desk, seat, value);
    free(desk, seat);
}

// Gives the turn back with the value, which has one entry more.
pub(crate) fn give_back_more<V: StandsFor>(desk: &Desk<V>, seat: &mut Place<V>, more: V)
    requires desk { (seat.old.table_id ≡ desk.now.table_id) × IsLock desk.now.table_id }
    requires empty { seat.old.me.1 ≡ (0, None) ∷ [] }
    requires hold { seat.old.me.0.hold ≡ Loaded }
    requires list { (entry : V.Entry) × (V.entries more ≡ seat.old.me.0.seen ++ entry ∷ []) }
    requires limit { V.limit more ≡ seat.old.me.0.limit }
    requires origin { seat.old.me.0.origin ≡ Some (V.origin more) }
    ensures same { IsSame seat.old seat.new }
    ensures freed { seat.new.me ≡ (with_hold (entering seat.old.me.0 (V.entries more)) Away, []) }
{
    let _ = more.count();
    fill(desk, seat, more);
    enter(desk, seat);
    free(desk, seat);
}
