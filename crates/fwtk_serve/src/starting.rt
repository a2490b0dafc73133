//! Workers that haven't begun yet.
ghost use Rattle.std.specs.Prelude.{◌≡◌, ◌+◌, ◌-◌, ◌<◌, ◌≤◌, [], ◌∷◌, ◌++◌, length, map, vec_len};
ghost use Rattle.std.specs.Vec.{vec_capacity};
ghost use Rattle.fwtk_serve.specs.Meeting.{starting};
ghost use Rattle.fwtk_serve.specs.Passes.{AreOf, less};
ghost use Rattle.fwtk_serve.specs.Stepping.{worker_with};
ghost use Rattle.fwtk_serve.specs.Working.{at_first, split_off};
ghost use Rattle.spool_pool.specs.Known.{less_one};
ghost use Rattle.spool_pool.specs.Known as pools;
ghost use Rattle.turn_lock.specs.Known.{IsPassOf, knowing};

use crate::passes::{Passes, PassesOf};
use crate::worker::{Worker, WorkerOf};
use acceptors::Acceptor;
use auth_port::{Book, Pass, Turns};
use fw_disk::Disk;
use fw_outside::Keeper;
use fw_types::NoMemory;
use spool_pool::{Pool, PoolPass};
use std::alloc::Global;
use std::collections::VecDeque;

// A pass of the book that is split off, with one part of those of the pass, which has more. It takes no memory.
fn another<K: Keeper>(turns: &Turns<Book<K>>, pass: &mut Pass<Book<K>>) -> Pass<Book<K>>
    requires pass { IsPassOf turns.now pass.old }
    requires more { 1 < pass.old.parts }
    ensures left { pass.new ≡ knowing turns.now (pass.old.parts - 1) pass.old.seen pass.old.mine pass.old.met }
    ensures is { result ≡ split_off turns.now pass.old.seen }
    ensures own { IsPassOf turns.now pass.new }
    ensures given { IsPassOf turns.now result }
{
    match turns.split(pass) {
        Ok(other) => other,
        Err(NoMemory) => unreachable!(),
    }
}

// A pass of the pool that is split off, so, too.
fn another_part<D: Disk>(pool: &Pool<D>, pass: &mut PoolPass<D>) -> PoolPass<D>
    requires pass { pools.IsPassOf pool.now pass.old }
    requires parts { 1 < pass.old.handed.parts }
    ensures less { pass.new ≡ less_one pass.old }
    ensures is { result ≡ pools.split_off pass.old }
{
    match pool.split(pass) {
        Ok(other) => other,
        Err(NoMemory) => unreachable!(),
    }
}

// Passes that are split off.
fn others<K: Keeper, D: Disk>(
    turns: &Turns<Book<K>>,
    pool: &Pool<D>,
    passes: &mut PassesOf<K, D>,
) -> PassesOf<K, D>
    requires passes { AreOf turns.now pool.now passes.old }
    requires turns { 1 < passes.old.book.parts }
    requires parts { 1 < passes.old.mail.handed.parts }
    ensures less { passes.new ≡ less turns.now 1 passes.old }
    ensures is { result ≡ at_first turns.now passes.old.book.seen passes.old.mail.handed.home passes.old.mail.handed.began }
    ensures own { AreOf turns.now pool.now passes.new }
    ensures given { AreOf turns.now pool.now result }
{
    Passes {
        book: another(turns, &mut passes.book),
        mail: another_part(pool, &mut passes.mail),
    }
}

// A worker more, at this door. There is room for it.
fn begin_one<K: Keeper, A: Acceptor, D: Disk>(
    alloc: Global,
    turns: &Turns<Book<K>>,
    pool: &Pool<D>,
    passes: &mut PassesOf<K, D>,
    door: A,
    workers: &mut Vec<WorkerOf<A, K, D>>,
)
    requires passes { AreOf turns.now pool.now passes.old }
    requires turns { 1 < passes.old.book.parts }
    requires parts { 1 < passes.old.mail.handed.parts }
    requires room { vec_len workers.old < vec_capacity workers.old }
    ensures less { passes.new ≡ less turns.now 1 passes.old }
    ensures own { AreOf turns.now pool.now passes.new }
    ensures begun { map (λ w. worker_with (A.acceptor_view w.door) w.sessions.items w.short w.passes) workers.new.items
        ≡ map (λ w. worker_with (A.acceptor_view w.door) w.sessions.items w.short w.passes) workers.old.items
        ++ starting (A.acceptor_view door)
        (at_first turns.now passes.old.book.seen passes.old.mail.handed.home passes.old.mail.handed.began) ∷ [] }
    ensures len { vec_len workers.new ≡ vec_len workers.old + 1 }
    ensures capacity { vec_capacity workers.new ≡ vec_capacity workers.old }
{
    let worker = Worker {
        door,
        passes: Some(others(turns, pool, passes)),
        sessions: Vec::new(alloc),
        short: false,
    };
    workers.push_reserved(worker);
}

/// A worker for each door, with passes that are split off, and have one part each. There is room for them, and the passes have a part
/// more.
pub(crate) fn workers_of<K: Keeper, A: Acceptor, D: Disk>(
    alloc: Global,
    turns: &Turns<Book<K>>,
    pool: &Pool<D>,
    passes: &mut PassesOf<K, D>,
    doors: Vec<A>,
    room: Vec<WorkerOf<A, K, D>>,
) -> Vec<WorkerOf<A, K, D>>
    requires passes { AreOf turns.now pool.now passes.old }
    requires turns { length doors.items < passes.old.book.parts }
    requires parts { length doors.items < passes.old.mail.handed.parts }
    requires none { room.items ≡ [] }
    requires room { length doors.items ≤ vec_capacity room }
    ensures less { passes.new ≡ less turns.now (length doors.items) passes.old }
    ensures own { AreOf turns.now pool.now passes.new }
    ensures are { map (λ w. worker_with (A.acceptor_view w.door) w.sessions.items w.short w.passes) result.items
        ≡ map (λ door. starting (A.acceptor_view door)
        (at_first turns.now passes.old.book.seen passes.old.mail.handed.home passes.old.mail.handed.began)) doors.items }
    ensures len { length result.items ≡ length doors.items }
{
    let mut workers = room;
    let mut left = VecDeque::from_vec(doors);
    while let Some(door) = left.pop_front() {
        begin_one(alloc, turns, pool, passes, door, &mut workers);
    }
    workers
}
