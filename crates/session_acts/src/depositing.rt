//! Taking in a message: a slot is taken, the client's data are heard into it, and it is put back full, free or broken.
ghost use Rattle.std.specs.Prelude.{◌≡◌, ◌+◌, ◌≤◌, ◌++◌, ℕ, List, [], length};
ghost use Rattle.fw_outside.specs.SinkView.{SinkView};
ghost use Rattle.session_acts.specs.Depositing.{IsFilled};
ghost use Rattle.session_acts.specs.Intake.{AreDataOf, DepositsSo, EntrustsSo, FitsTray, IsLentFree, IsTray, KeepsSo, PutsBack, HearsInto, IsLostByFault, IsOfFault, SettlesSo, tray_number, unended};
ghost use Rattle.slot_bytes.specs.Layout.{IsEnvelope};
ghost use Rattle.spool_rack.specs.Store.{IsOut, MayPutBroken, MayPutFull, PutsBroken, TakesFree, put_free, put_full};
ghost use Rattle.spool_slots.specs.States.{SlotView};

use crate::{Cause, Deposited};
use fw_disk::Disk;
use fw_outside::{LineReader, Sink, Source, Stop};
use fw_types::OctetsList;
use smap_lines::{BodyStep, MailBody};
use spool_rack::{Broken, Filling, Free, Full, MailStore, StartFault};
use std::alloc::Global;

/// A message whose data are being heard.
#[derive(Drop)]
pub(crate) enum Tray<D: Disk> {
    /// All of the body so far is in it.
    Open(Filling<D>),
    /// The body has more bytes than may be.
    Large(Filling<D>),
    /// The disk failed.
    Lost(Broken<D>),
}

// Adds the next bytes of the body, as long as no more come than are left.
fn lay_open<D: Disk>(filling: Filling<D>, bytes: &[u8], left: &mut u32) -> Tray<D>
    requires fits { filling.pen.len + left.old ≤ 67108864 }
    ensures tray { (sender : List ℕ) (rcpts : List (List ℕ)) (most : ℕ) (slot : SlotView) (given : List ℕ) →
        IsFilled sender rcpts given slot filling → left.old + length given ≡ most →
        IsTray sender rcpts most slot (given ++ bytes.now) left.new result }
    ensures fits { FitsTray left.new result }
    ensures number { tray_number result ≡ filling.number }
{
    if bytes.len() > *left as usize {
        return Tray::Large(filling);
    }
    match filling.add(bytes) {
        Ok(filling) => {
            *left -= bytes.len() as u32;
            Tray::Open(filling)
        }
        Err(broken) => Tray::Lost(broken),
    }
}

// Adds the next bytes of the body, unless they come too late.
fn lay<D: Disk>(tray: Tray<D>, bytes: &[u8], left: &mut u32) -> Tray<D>
    requires fits { FitsTray left.old tray }
    ensures tray { (sender : List ℕ) (rcpts : List (List ℕ)) (most : ℕ) (slot : SlotView) (given : List ℕ) →
        IsTray sender rcpts most slot given left.old tray →
        IsTray sender rcpts most slot (given ++ bytes.now) left.new result }
    ensures fits { FitsTray left.new result }
    ensures number { tray_number result ≡ tray_number tray }
{
    match tray {
        Tray::Open(filling) => lay_open(filling, bytes, left),
        Tray::Large(filling) => Tray::Large(filling),
        Tray::Lost(broken) => Tray::Lost(broken),
    }
}

// Hears data to their end, or to where the source stops, and adds the body.
fn hear_data<S: Source, D: Disk>(
    reader: &mut LineReader,
    from: &mut S,
    tray: Tray<D>,
    left: &mut u32,
) -> (Option<Stop>, Tray<D>)
    requires fits { FitsTray left.old tray }
    ensures number { tray_number result.1 ≡ tray_number tray }
    ensures lost { IsLostByFault result.1 }
    ensures heard { AreDataOf reader.old reader.new (S.source_view from.old) (S.source_view from.new) left.old tray
        result.0 result.1 }
{
    let mut body = MailBody::new();
    let mut tray = tray;
    loop {
        match reader.next_byte(from) {
            Ok(byte) => match body.feed(byte) {
                BodyStep::Bytes(bytes) => tray = lay(tray, &bytes, left),
                BodyStep::End => return (None, tray),
            },
            Err(stop) => return (Some(stop), tray),
        }
    }
}

// A free slot, if there is one.
#[tactic(auto, using(spool_rack::proofs::SeenLemmas::free_seen))]
fn take_free<M: MailStore>(store: &mut M) -> Option<Free<M::D>>
    ensures { TakesFree result (M.store_view store.old) (M.store_view store.new) }
{
    match store.take_free() {
        Some(free) => Some(free),
        None => None,
    }
}

// Puts back a slot that is free.
fn put_free<M: MailStore>(store: &mut M, free: Free<M::D>)
    requires { IsOut free.number (M.store_view store.old).out }
    ensures { M.store_view store.new ≡ put_free free (M.store_view store.old) }
{
    store.put_free(free);
}

// Puts back a slot with a message.
fn put_full<M: MailStore>(store: &mut M, full: Full<M::D>)
    requires { MayPutFull full (M.store_view store.old).out }
    ensures { M.store_view store.new ≡ put_full full (M.store_view store.old) }
{
    store.put_full(full);
}

// Puts back a slot whose disk failed.
fn put_broken<M: MailStore>(store: &mut M, broken: Broken<M::D>)
    requires { MayPutBroken broken (M.store_view store.old).out }
    ensures { PutsBroken broken (M.store_view store.old) (M.store_view store.new) }
{
    store.put_broken(broken);
}

// So for one that was taken free.
fn put_lost<M: MailStore>(store: &mut M, broken: Broken<M::D>)
    requires fault { IsOfFault broken }
    requires lent { IsLentFree broken.number (M.store_view store.old).out }
    ensures { PutsBroken broken (M.store_view store.old) (M.store_view store.new) }
{
    put_broken(store, broken);
}

// Gives a message up.
fn give_up<M: MailStore>(store: &mut M, filling: Filling<M::D>)
    requires { IsLentFree filling.number (M.store_view store.old).out }
    ensures { M.store_view store.new ≡ put_free (record { number = filling.number; disk = filling.disk })
        (M.store_view store.old) }
{
    put_free(store, filling.abandon());
}

// Finishes a message.
fn keep<M: MailStore>(store: &mut M, filling: Filling<M::D>) -> Deposited
    requires { IsLentFree filling.number (M.store_view store.old).out }
    ensures { (sender : List ℕ) (rcpts : List (List ℕ)) (body : List ℕ) (slot : SlotView) →
        IsFilled sender rcpts body slot filling →
        KeepsSo sender rcpts body result slot (M.store_view store.old) (M.store_view store.new) }
{
    let bytes = filling.len();
    match filling.finish() {
        Ok(full) => {
            let slot = full.number();
            put_full(store, full);
            Deposited::Kept { slot, bytes }
        }
        Err(broken) => {
            put_broken(store, broken);
            Deposited::Faulted
        }
    }
}

// Puts back the slot of a message whose data have an end.
fn settle<M: MailStore>(store: &mut M, tray: Tray<M::D>) -> Deposited
    requires lost { IsLostByFault tray }
    requires lent { IsLentFree (tray_number tray) (M.store_view store.old).out }
    ensures { (sender : List ℕ) (rcpts : List (List ℕ)) (most : ℕ) (slot : SlotView) (given : List ℕ) (left : ℕ) →
        IsTray sender rcpts most slot given left tray →
        SettlesSo sender rcpts most given result slot (M.store_view store.old) (M.store_view store.new) }
{
    match tray {
        Tray::Open(filling) => keep(store, filling),
        Tray::Large(filling) => {
            give_up(store, filling);
            Deposited::TooLarge
        }
        Tray::Lost(broken) => {
            put_lost(store, broken);
            Deposited::Faulted
        }
    }
}

// Puts back the slot of a message whose data came to no end.
fn put_back<M: MailStore>(store: &mut M, tray: Tray<M::D>)
    requires lost { IsLostByFault tray }
    requires lent { IsLentFree (tray_number tray) (M.store_view store.old).out }
    ensures { (sender : List ℕ) (rcpts : List (List ℕ)) (most : ℕ) (slot : SlotView) (given : List ℕ) (left : ℕ) →
        IsTray sender rcpts most slot given left tray →
        PutsBack sender rcpts slot (M.store_view store.old) (M.store_view store.new) }
{
    match tray {
        Tray::Open(filling) => give_up(store, filling),
        Tray::Large(filling) => give_up(store, filling),
        Tray::Lost(broken) => put_lost(store, broken),
    }
}

// How a message ends whose data came to no end.
fn unended(stop: Stop) -> Result<Deposited, Cause>
    ensures { result ≡ unended stop }
{
    match stop {
        Stop::End => Ok(Deposited::Ended),
        Stop::Idle => Err(Cause::Idle),
        Stop::Failed => Err(Cause::ClientFault),
        Stop::Spent => Err(Cause::Spent),
    }
}

// Hears the data of a message, and puts its slot back.
fn hear_into<S: Source, M: MailStore>(
    reader: &mut LineReader,
    from: &mut S,
    store: &mut M,
    filling: Filling<M::D>,
    most: u32,
) -> Result<Deposited, Cause>
    requires lent { IsLentFree filling.number (M.store_view store.old).out }
    requires fits { filling.pen.len + most ≤ 67108864 }
    ensures { (sender : List ℕ) (rcpts : List (List ℕ)) (words : List ℕ) (slot : SlotView) (outlet : SinkView) →
        IsFilled sender rcpts [] slot filling →
        HearsInto sender rcpts words most result slot
        (record { inlet = S.source_view from.old; reader = reader.old; outlet = outlet })
        (record { inlet = S.source_view from.new; reader = reader.new; outlet = outlet })
        (M.store_view store.old) (M.store_view store.new) }
{
    let mut left = most;
    let (stop, tray) = hear_data(reader, from, Tray::Open(filling), &mut left);
    match stop {
        None => Ok(settle(store, tray)),
        Some(stop) => {
            put_back(store, tray);
            unended(stop)
        }
    }
}

// Says the words, hears the data of a message that was begun, and puts its slot back.
fn entrust<S: Source, K: Sink, M: MailStore>(
    reader: &mut LineReader,
    from: &mut S,
    to: &mut K,
    store: &mut M,
    filling: Filling<M::D>,
    words: &[u8],
    most: u32,
) -> Result<Deposited, Cause>
    requires lent { IsLentFree filling.number (M.store_view store.old).out }
    requires fits { filling.pen.len + most ≤ 67108864 }
    ensures { (sender : List ℕ) (rcpts : List (List ℕ)) (slot : SlotView) →
        IsFilled sender rcpts [] slot filling →
        EntrustsSo sender rcpts words.now most result slot
        (record { inlet = S.source_view from.old; reader = reader.old; outlet = K.sink_view to.old })
        (record { inlet = S.source_view from.new; reader = reader.new; outlet = K.sink_view to.new })
        (M.store_view store.old) (M.store_view store.new) }
{
    match to.give(words) {
        Ok(()) => hear_into(reader, from, store, filling, most),
        Err(_) => {
            give_up(store, filling);
            Err(Cause::ClientFault)
        }
    }
}

/// Takes a free slot, says the words, hears the client's data into it, and puts it back.
pub(crate) fn deposit<S: Source, K: Sink, M: MailStore>(
    reader: &mut LineReader,
    from: &mut S,
    to: &mut K,
    store: &mut M,
    alloc: Global,
    sender: &[u8],
    rcpts: &OctetsList,
    words: &[u8],
    most: u32,
) -> Result<Deposited, Cause>
    requires envelope { IsEnvelope sender.now rcpts.now }
    requires small { most ≤ 67108864 }
    ensures { DepositsSo sender.now rcpts.now words.now most result
        (record { inlet = S.source_view from.old; reader = reader.old; outlet = K.sink_view to.old })
        (record { inlet = S.source_view from.new; reader = reader.new; outlet = K.sink_view to.new })
        (M.store_view store.old) (M.store_view store.new) }
{
    let Some(free) = take_free(store) else {
        return Ok(Deposited::NoSlot);
    };
    match free.start(alloc, sender, rcpts) {
        Ok(filling) => entrust(reader, from, to, store, filling, words, most),
        Err(StartFault::NoMemory(free)) => {
            put_free(store, free);
            Err(Cause::NoMemory)
        }
        Err(StartFault::Disk(broken)) => {
            put_broken(store, broken);
            Ok(Deposited::NotBegun)
        }
    }
}
