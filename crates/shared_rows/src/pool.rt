//! A pool of one slot: it is taken, none is left, and once it is put back it is taken again.

ghost use Rattle.spool_pool.specs.Known.{IsPassOf};

use fw_memory::{Calls, MemDisk};
use fw_types::{NoMemory, Octets};
use spool_pool::{MailStore, Pool, PoolPass, PoolSeat};
use spool_rack::Rack;
use std::alloc::Global;
use std::io;
use std::sync::Wait;

// Takes a free slot twice, puts the first back, and takes one again: which of these gave one.
#[tactic(auto, using(crate::proofs::pool::OutLemmas::out_here, crate::proofs::pool::OutLemmas::out_still, spool_rack::proofs::SeenLemmas::out_seen))]
fn take_and_put<M: MailStore>(store: &mut M) -> (bool, bool, bool) {
    match store.take_free() {
        None => (false, false, false),
        Some(slot) => {
            let second = store.take_free().is_some();
            store.put_free(slot);
            let third = store.take_free().is_some();
            (true, second, third)
        }
    }
}

fn told(found: bool) -> &'static str {
    if found { "Some" } else { "None" }
}

// A rack of one free slot.
fn one_slot(alloc: Global) -> Result<Rack<MemDisk>, NoMemory> {
    let bytes = Octets::copy(alloc, b"\0\0")?;
    let mut disks = Vec::new(alloc);
    disks.push(MemDisk::new(alloc, bytes, Calls::none()))?;
    match Rack::open(alloc, disks) {
        Ok(rack) => Ok(rack),
        Err(_) => Err(NoMemory),
    }
}

fn in_a_pool<R: Wait>(rt: &R, alloc: Global) -> Result<(bool, bool, bool), NoMemory> {
    let rack = one_slot(alloc)?;
    match Pool::new(rt, alloc, rack) {
        Ok((pool, pass)) => Ok(sit(rt, &pool, pass)),
        Err((_, NoMemory)) => Err(NoMemory),
    }
}

fn sit<R: Wait>(rt: &R, pool: &Pool<MemDisk>, pass: PoolPass<MemDisk>) -> (bool, bool, bool)
    requires { IsPassOf pool.now pass }
{
    let mut seat = PoolSeat::new(rt, pool, pass);
    take_and_put(&mut seat)
}

/// Prints what comes of the takes.
///
/// # Errors
///
/// What standard output answers.
pub fn print_all<H: Wait>(waiter: &H, rt: HostRuntime) -> io::Result<()> {
    let Ok((first, second, third)) = in_a_pool(waiter, rt.alloc()) else {
        return println!(rt; "no memory");
    };
    println!(rt; "{}", told(first))?;
    println!(rt; "{}", told(second))?;
    println!(rt; "{}", told(third))
}
