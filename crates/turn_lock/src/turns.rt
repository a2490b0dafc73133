//! The lock.
ghost use Rattle.std.specs.Prelude.{◌≡◌, ◌^◌, ◌++◌, [], IfErr, IfOk, Ok, length};
ghost use mathlib.Core.List.{IsPrefix};
ghost use Rattle.turn_lock.specs.Known.{IsPassOf, Met, TookTurn, given_parts, kept_parts, knowing};
ghost use Rattle.turn_lock.specs.Places.{AreWithin, Fill, Places};

use crate::ending::end;
use crate::pass::Pass;
use crate::plays::Look;
use crate::rule::{Halves, Law, Meeting};
use crate::stands_for::{StandsFor, TurnCall};
use crate::steps::{LENGTH, give_back, give_back_more, take_out};
use crate::view::View;
use atomic_table::{Refused, Table};
use fw_types::NoMemory;
use std::alloc::{AllocFailed, Global};
use std::marker::Model;
use std::snapshot::Snapshot;
use std::sync::Wait;

/// A value of which each thread in turn applies a call. Contracts see it as which lock it is, with how many entries the value
/// had at first, its limit and its origin.
#[derive(Drop)]
pub struct Turns<V: StandsFor> {
    table: Table<Option<V>, View<V::Entry, V::Origin>, Snapshot<V>, Law, Global>,
}

impl<V: StandsFor> Model for Turns<V> {
    ghost use Rattle.std.specs.Prelude.{length};
    ghost use Rattle.turn_lock.specs.Known.{Lock};

    ghost Value = { Lock V.Origin };

    ghost use Rattle.turn_lock.specs.Rest.{IsLock, home_of};

    ghost view = { λ turns. record {
      home = home_of turns.table.shared.table_id;
      begun = length (V.entries turns.table.shared.key.value);
      limit = V.limit turns.table.shared.key.value;
      origin = V.origin turns.table.shared.key.value;
    } };

    ghost invariant = { λ turns. IsLock turns.table.shared.table_id };
}

impl<V: StandsFor> Turns<V> {
    /// A lock over this value, and the first pass, which has seen all its entries and has all parts of the lock.
    pub fn new(alloc: Global, value: V) -> Result<(Turns<V>, Pass<V>), (V, NoMemory)>
        ensures begun { IfOk result (λ made. made.0.begun ≡ length (V.entries value)) }
        ensures limit { IfOk result (λ made. made.0.limit ≡ V.limit value) }
        ensures origin { IfOk result (λ made. made.0.origin ≡ V.origin value) }
        ensures pass { IfOk result (λ made. made.1 ≡ knowing made.0 (2 ^ 64) (V.entries value) [] []) }
        ensures given { IfOk result (λ made. IsPassOf made.0 made.1) }
        ensures back { IfErr result (λ fault. fault.0 ≡ value) }
    {
        let about = Snapshot::of(&value);
        let length = value.count();
        let mut slots = Vec::new(alloc);
        if let Err(AllocFailed { value: slot }) = slots.push(Some(value)) {
            return Err((slot.unwrap(), NoMemory));
        }
        match Table::new(alloc, &[0, length], slots, &about) {
            Ok((table, seat)) => Ok((Turns { table }, Pass { seat })),
            Err(Refused { mut slots }) => match slots.pop() {
                Some(Some(value)) => Err((value, NoMemory)),
                _ => unreachable!(),
            },
        }
    }

    /// Waits for the turn, applies the call to the value, and gives the turn back.
    pub fn with_turn<C: TurnCall<V>, R: Wait>(
        &self,
        rt: &R,
        pass: &mut Pass<V>,
        call: C,
    ) -> C::Answer
        requires pass { IsPassOf self.now pass.old }
        ensures turn { TookTurn (λ found limit origin seen. C.does call found limit origin result seen) self.now pass.old
            pass.new }
        ensures own { IsPassOf self.now pass.new }
        ensures places { Places pass.new.seen pass.new.mine }
    {
        let desk = &self.table.shared;
        let mut value = take_out(rt, desk, &mut pass.seat);
        let before = value.count();
        let answer = call.apply(&mut value);
        if value.count() == before {
            give_back(desk, &mut pass.seat, value);
            answer
        } else {
            give_back_more(desk, &mut pass.seat, value);
            answer
        }
    }

    /// A pass that has seen the same, and has no places. Where the pass has more than one part, it gives one to the other; else
    /// neither has any. It takes no memory.
    pub fn split(&self, pass: &mut Pass<V>) -> Result<Pass<V>, NoMemory>
        requires pass { IsPassOf self.now pass.old }
        ensures left { pass.new ≡ knowing self.now (kept_parts pass.old.parts) pass.old.seen pass.old.mine pass.old.met }
        ensures new { result ≡ Ok (knowing self.now (given_parts pass.old.parts) pass.old.seen [] []) }
        ensures own { IsPassOf self.now pass.new }
        ensures given { IfOk result (IsPassOf self.now) }
    {
        let seat = self.table.shared.split_seat::<Halves>(&mut pass.seat);
        Ok(Pass { seat })
    }

    /// The pass takes in what another knows, and its parts.
    pub fn meet(&self, pass: &mut Pass<V>, other: Pass<V>)
        requires pass { IsPassOf self.now pass.old }
        requires other { IsPassOf self.now other }
        ensures met { Met self.now pass.old other pass.new }
        ensures own { IsPassOf self.now pass.new }
        ensures places { Places pass.new.seen pass.new.mine }
        ensures met_places { Places other.seen other.mine }
    {
        let seat = other.into_seat();
        let desk = &self.table.shared;
        desk.join_seat::<Meeting>(&mut pass.seat, seat);
        desk.load::<Look>(&mut pass.seat, LENGTH);
    }

    /// Waits for the turn, and hands the value out. If the pass has all parts, its places and those that it met are all from the
    /// number of entries that there were at first.
    pub fn close<R: Wait>(self, rt: &R, pass: Pass<V>) -> V
        requires pass { IsPassOf self pass }
        ensures begins { IsPrefix pass.seen (V.entries result) }
        ensures limit { V.limit result ≡ self.limit }
        ensures origin { V.origin result ≡ self.origin }
        ensures within { AreWithin self.begun (length (V.entries result)) (pass.mine ++ pass.met) }
        ensures whole { pass.parts ≡ 2 ^ 64 → Fill self.begun (length (V.entries result)) (pass.mine ++ pass.met) }
    {
        let mut seat = pass.into_seat();
        let value = take_out(rt, &self.table.shared, &mut seat);
        let Turns { table } = self;
        end(table, seat);
        value
    }
}
