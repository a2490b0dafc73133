//! What is told of racks of slots on disks in memory.
ghost use Rattle.std.specs.Prelude.{◌≡◌, false, IfSome};
ghost use Rattle.spool_rack.specs.Store.{MayPutBroken};
ghost use Rattle.spool_rows.specs.Out.{IsLentFree, IsLentFull};

use crate::spool::disks::bytes_of;
use crate::spool::slots::{letter_of, recipients};
use fw_memory::{Calls, MemDisk};
use fw_types::{NoMemory, Octets};
use lines_of_rows::{Told, add_number, add_word, cut, cut_word, number_of};
use spool_rack::{
    Broken, Filling, Free, Full, MailStore, Rack, RackFault, SlotStore, SlotWhy, StartFault,
};
use std::alloc::Global;

type MemRack = Rack<MemDisk>;

// The bytes of a slot: `f` a free one, `w` with the message from a@b to c@d, `a` with it set aside, or digits.
fn slot_of(alloc: Global, word: &[u8]) -> Result<Vec<u8>, NoMemory> {
    match word {
        b"f" => bytes_of(alloc, b"0000"),
        b"w" => bytes_of(
            alloc,
            b"01004657533100000000000000050001000361406200036340646162630d0a",
        ),
        b"a" => bytes_of(
            alloc,
            b"01014657533100000000000000050001000361406200036340646162630d0a",
        ),
        digits => bytes_of(alloc, digits),
    }
}

fn fails_of(first: &[u8]) -> Calls {
    match first {
        [] => Calls::none(),
        _ => Calls::onward(number_of(first)),
    }
}

// The disk of a slot, and behind `!` the first call of it that fails.
fn disk_of(alloc: Global, word: &[u8]) -> Result<MemDisk, NoMemory> {
    let (slot, first) = cut(word, b'!');
    let bytes = slot_of(alloc, slot)?;
    Ok(MemDisk::new(alloc, Octets::of(bytes), fails_of(first)))
}

fn disks_of(alloc: Global, words: &[u8]) -> Result<Vec<MemDisk>, NoMemory> {
    let mut disks = Vec::new(alloc);
    if !words.is_empty() {
        for word in words.split(|byte| *byte == b',') {
            disks.push(disk_of(alloc, word)?)?;
        }
    }
    Ok(disks)
}

fn tell_disks(alloc: Global, disks: &[MemDisk], out: &mut Told) -> Result<(), NoMemory> {
    for disk in disks {
        add_word(out, &[letter_of(alloc, disk.bytes())?]);
    }
    Ok(())
}

fn tell_number(what: &[u8], number: u32, out: &mut Told) {
    add_word(out, what);
    add_number(out, u64::from(number));
}

// Puts a slot whose disk failed.
#[tactic(auto, using(spool_rack::proofs::SeenLemmas::may_put_broken_seen))]
fn put_broken<M: MailStore>(store: &mut M, broken: Broken<M::D>, out: &mut Told)
    requires { MayPutBroken broken (M.store_view store.old).out }
{
    tell_number(b"broken", broken.number(), out);
    store.put_broken(broken);
}

// Finishes a message, and puts its slot full.
#[tactic(auto, using(crate::proofs::spool::OutLemmas::may_put_new, crate::proofs::spool::OutLemmas::may_put_broken, spool_rack::proofs::SeenLemmas::may_put_full_seen))]
fn finish<M: MailStore>(store: &mut M, filling: Filling<M::D>, out: &mut Told)
    requires { IsLentFree filling.number (M.store_view store.old).out }
{
    match filling.finish() {
        Ok(full) => {
            tell_number(b"kept", full.number(), out);
            store.put_full(full);
        }
        Err(broken) => put_broken(store, broken, out),
    }
}

// Writes an empty message in a free slot, and puts it full.
#[tactic(auto, using(crate::proofs::spool::OutLemmas::free_onward, crate::proofs::spool::OutLemmas::may_put_broken))]
fn write<M: MailStore>(
    alloc: Global,
    store: &mut M,
    free: Free<M::D>,
    out: &mut Told,
) -> Result<(), NoMemory>
    requires { IsLentFree free.number (M.store_view store.old).out }
{
    let rcpts = recipients(alloc)?;
    match free.start(alloc, b"a@b", &rcpts) {
        Ok(filling) => finish(store, filling, out),
        Err(StartFault::NoMemory(_)) => return Err(NoMemory),
        Err(StartFault::Disk(broken)) => put_broken(store, broken, out),
    }
    Ok(())
}

// Releases a full slot, and puts it.
#[tactic(auto, using(crate::proofs::spool::OutLemmas::released_out, crate::proofs::spool::OutLemmas::may_put_failed, spool_rack::proofs::SeenLemmas::out_seen))]
fn release<M: MailStore>(store: &mut M, full: Full<M::D>, out: &mut Told)
    requires { IsLentFull full (M.store_view store.old).out }
{
    match full.release() {
        Ok(free) => {
            tell_number(b"handed", free.number(), out);
            store.put_free(free);
        }
        Err(broken) => put_broken(store, broken, out),
    }
}

// Sets a full slot aside, and puts it.
#[tactic(auto, using(crate::proofs::spool::OutLemmas::may_put_aside, crate::proofs::spool::OutLemmas::may_put_failed, spool_rack::proofs::SeenLemmas::may_put_aside_seen))]
fn set_aside<M: MailStore>(store: &mut M, full: Full<M::D>, out: &mut Told)
    requires { IsLentFull full (M.store_view store.old).out }
{
    match full.set_aside() {
        Ok(aside) => {
            tell_number(b"aside", aside.number(), out);
            store.put_aside(aside);
        }
        Err(broken) => put_broken(store, broken, out),
    }
}

// Puts a full slot back as it is.
#[tactic(auto, using(crate::proofs::spool::OutLemmas::may_put_back, spool_rack::proofs::SeenLemmas::may_put_full_seen))]
fn put_back<M: MailStore>(store: &mut M, full: Full<M::D>, out: &mut Told)
    requires lent { IsLentFull full (M.store_view store.old).out }
    requires read { full.unread ≡ false }
{
    tell_number(b"back", full.number(), out);
    store.put_full(full);
}

#[tactic(auto, using(crate::proofs::spool::OutLemmas::lent_free, spool_rack::proofs::SeenLemmas::free_seen))]
fn take_free<M: MailStore>(store: &mut M) -> Option<Free<M::D>>
    ensures { IfSome result (λ free. IsLentFree free.number (M.store_view store.new).out) }
{
    store.take_free()
}

#[tactic(auto, using(crate::proofs::spool::OutLemmas::lent_full, crate::proofs::spool::OutLemmas::read_full, spool_rack::proofs::SeenLemmas::full_seen))]
fn take_full<M: MailStore>(store: &mut M) -> Option<Full<M::D>>
    ensures lent { IfSome result (λ full. IsLentFull full (M.store_view store.new).out) }
    ensures read { IfSome result (λ full. full.unread ≡ false) }
{
    store.take_full()
}

// A step with the free slot at the front.
#[tactic(auto, using(crate::proofs::spool::OutLemmas::free_out, spool_rack::proofs::SeenLemmas::out_seen))]
fn step_free<M: MailStore>(
    alloc: Global,
    store: &mut M,
    step: &[u8],
    out: &mut Told,
) -> Result<(), NoMemory> {
    let Some(free) = take_free(store) else {
        add_word(out, b"none");
        return Ok(());
    };
    match step {
        b"keep" => write(alloc, store, free, out)?,
        b"lose" => tell_number(b"lost", free.number(), out),
        _ => {
            tell_number(b"free", free.number(), out);
            store.put_free(free);
        }
    }
    Ok(())
}

// A step with the full slot at the front.
fn step_full<M: MailStore>(store: &mut M, step: &[u8], out: &mut Told) {
    let Some(full) = take_full(store) else {
        add_word(out, b"none");
        return;
    };
    match step {
        b"hand" => release(store, full, out),
        b"aside" => set_aside(store, full, out),
        b"drop" => tell_number(b"dropped", full.number(), out),
        _ => put_back(store, full, out),
    }
}

// One step: `free`, `keep` and `lose` take a free slot, and `hand`, `aside`, `drop` and `back` a full one.
fn step<M: MailStore>(
    alloc: Global,
    store: &mut M,
    step: &[u8],
    out: &mut Told,
) -> Result<(), NoMemory> {
    match step {
        b"free" | b"keep" | b"lose" => step_free(alloc, store, step, out),
        _ => {
            step_full(store, step, out);
            Ok(())
        }
    }
}

fn do_steps(
    alloc: Global,
    rack: &mut MemRack,
    steps: &[u8],
    out: &mut Told,
) -> Result<(), NoMemory> {
    for word in steps.split(|byte| *byte == b' ') {
        step(alloc, rack, word, out)?;
    }
    Ok(())
}

fn tell_steps(
    alloc: Global,
    mut rack: MemRack,
    steps: &[u8],
    out: &mut Told,
) -> Result<Vec<MemDisk>, NoMemory> {
    let done = do_steps(alloc, &mut rack, steps, out);
    let disks = rack.close();
    done?;
    add_word(out, b"closed");
    Ok(disks)
}

fn tell_fault(fault: RackFault<MemDisk>, out: &mut Told) -> Result<Vec<MemDisk>, NoMemory> {
    let RackFault { disks, slot, why } = fault;
    tell_number(b"fault slot", slot, out);
    match why {
        SlotWhy::BadSlot { at } => {
            add_word(out, b"bad at");
            add_number(out, at);
        }
        SlotWhy::DiskFault => add_word(out, b"disk"),
        SlotWhy::NoMemory => return Err(NoMemory),
    }
    Ok(disks)
}

/// `rack SLOTS STEPS => ANSWERS closed LETTERS`, or `fault slot N WHY LETTERS`: the slots are opened as a rack, each
/// step takes one of them and puts it back, and the rack is closed. The letters say what the disks hold that come back.
pub(crate) fn tell_rack(alloc: Global, asked: &[u8], out: &mut Told) -> Result<(), NoMemory> {
    let (slots, steps) = cut_word(asked);
    let disks = disks_of(alloc, slots)?;
    if disks.len() > 64 {
        add_word(out, b"too many slots");
        return Ok(());
    }
    let back = match Rack::open(alloc, disks) {
        Ok(rack) => tell_steps(alloc, rack, steps, out)?,
        Err(fault) => tell_fault(fault, out)?,
    };
    tell_disks(alloc, &back, out)
}
