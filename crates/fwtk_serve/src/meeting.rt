//! The passes of all workers meet, and what they did is gathered.
ghost use Rattle.std.specs.Prelude.{◌≡◌, ◌+◌, ◌-◌, ◌^◌, ◌<◌, ◌≤◌, ◌∷◌, [], if◌then◌else◌, length, map, min, vec_len};
ghost use Rattle.std.specs.Vec.{vec_capacity};
ghost use Rattle.fwtk_serve.specs.Meeting.{HasPasses, HavePasses, passes_of, with_passes};
ghost use Rattle.fwtk_serve.specs.Passes.{AreOf, IsApart, MeetAll, MetAll};
ghost use Rattle.fwtk_serve.specs.Stepping.{gathered_with, with_worker, worker_with, workers_short};
ghost use Rattle.turn_lock.specs.Known.{IsPassOf};

use crate::passes::{Passes, PassesOf};
use crate::report::Served;
use crate::worker::{Worker, WorkerOf};
use acceptors::Acceptor;
use auth_port::{Book, Pass, Turns};
use fw_disk::Disk;
use fw_outside::Keeper;
use spool_pool::Pool;
use std::collections::VecDeque;

/// The doors, their sessions, and how many workers wanted memory.
#[derive(Drop)]
pub(crate) struct Gathered<A> {
    pub(crate) doors: Vec<A>,
    pub(crate) sessions: Vec<Vec<Served>>,
    pub(crate) short: u32,
}

// The pass of the book meets another.
fn meet_book<K: Keeper>(turns: &Turns<Book<K>>, pass: &mut Pass<Book<K>>, other: Pass<Book<K>>)
    requires pass { IsPassOf turns.now pass.old }
    requires other { IsPassOf turns.now other }
    ensures met { MetAll turns.now (other ∷ []) pass.old pass.new }
    ensures own { IsPassOf turns.now pass.new }
{
    turns.meet(pass, other);
}

// The passes meet others.
fn meet_one<K: Keeper, D: Disk>(
    turns: &Turns<Book<K>>,
    pool: &Pool<D>,
    passes: &mut PassesOf<K, D>,
    others: PassesOf<K, D>,
)
    requires passes { AreOf turns.now pool.now passes.old }
    requires others { AreOf turns.now pool.now others }
    ensures met { MeetAll turns.now (others ∷ []) passes.old passes.new }
    ensures own { AreOf turns.now pool.now passes.new }
{
    let Passes { book, mail } = others;
    meet_book(turns, &mut passes.book, book);
    pool.meet(&mut passes.mail, mail);
}

// The number after one more, if there is one more.
fn counted(short: bool, count: u32) -> u32
    ensures { result ≡ min (count + (if short then 1 else 0)) (2 ^ 32 - 1) }
{
    if short {
        count.saturating_add(1)
    } else {
        count
    }
}

// The passes meet those of a worker.
fn meet_of<K: Keeper, D: Disk>(
    turns: &Turns<Book<K>>,
    pool: &Pool<D>,
    passes: &mut PassesOf<K, D>,
    others: Option<PassesOf<K, D>>,
)
    requires passes { AreOf turns.now pool.now passes.old }
    requires others { HasPasses (AreOf turns.now pool.now) others }
    ensures met { MeetAll turns.now (with_passes others []) passes.old passes.new }
    ensures own { AreOf turns.now pool.now passes.new }
{
    match others {
        Some(others) => meet_one(turns, pool, passes, others),
        None => unreachable!(),
    }
}

// The passes meet those of a worker, and what this did is gathered. There is room for it.
fn gather_one<K: Keeper, A: Acceptor, D: Disk>(
    turns: &Turns<Book<K>>,
    pool: &Pool<D>,
    passes: &mut PassesOf<K, D>,
    worker: WorkerOf<A, K, D>,
    gathered: &mut Gathered<A>,
)
    requires passes { AreOf turns.now pool.now passes.old }
    requires worker { HasPasses (AreOf turns.now pool.now) worker.passes }
    requires doors { vec_len gathered.old.doors < vec_capacity gathered.old.doors }
    requires sessions { vec_len gathered.old.sessions < vec_capacity gathered.old.sessions }
    ensures met { MeetAll turns.now (with_passes worker.passes []) passes.old passes.new }
    ensures own { AreOf turns.now pool.now passes.new }
    ensures gathered { gathered_with (map A.acceptor_view gathered.new.doors.items) (map (λ s. s.items) gathered.new.sessions.items)
        gathered.new.short
        ≡ with_worker
        (gathered_with (map A.acceptor_view gathered.old.doors.items) (map (λ s. s.items) gathered.old.sessions.items)
        gathered.old.short)
        (worker_with (A.acceptor_view worker.door) worker.sessions.items worker.short worker.passes) }
    ensures door_len { vec_len gathered.new.doors ≡ vec_len gathered.old.doors + 1 }
    ensures door_room { vec_capacity gathered.new.doors ≡ vec_capacity gathered.old.doors }
    ensures session_len { vec_len gathered.new.sessions ≡ vec_len gathered.old.sessions + 1 }
    ensures session_room { vec_capacity gathered.new.sessions ≡ vec_capacity gathered.old.sessions }
{
    let Worker {
        door,
        passes: others,
        sessions,
        short,
    } = worker;
    meet_of(turns, pool, passes, others);
    gathered.doors.push_reserved(door);
    gathered.sessions.push_reserved(sessions);
    gathered.short = counted(short, gathered.short);
}

/// The passes meet those of all workers. There is room for what is gathered.
pub(crate) fn meet_all<K: Keeper, A: Acceptor, D: Disk>(
    turns: &Turns<Book<K>>,
    pool: &Pool<D>,
    passes: &mut PassesOf<K, D>,
    workers: Vec<WorkerOf<A, K, D>>,
    room: Gathered<A>,
) -> Gathered<A>
    requires passes { AreOf turns.now pool.now passes.old }
    requires apart { IsApart passes.old.book }
    requires workers { HavePasses turns.now pool.now
        (map (λ w. worker_with (A.acceptor_view w.door) w.sessions.items w.short w.passes) workers.items) }
    requires none { (room.doors.items ≡ []) × (room.sessions.items ≡ []) × (room.short ≡ 0) }
    requires doors { length workers.items ≤ vec_capacity room.doors }
    requires sessions { length workers.items ≤ vec_capacity room.sessions }
    ensures met { MeetAll turns.now
        (passes_of (map (λ w. worker_with (A.acceptor_view w.door) w.sessions.items w.short w.passes) workers.items))
        passes.old passes.new }
    ensures own { AreOf turns.now pool.now passes.new }
    ensures doors { map A.acceptor_view result.doors.items ≡ map (λ w. w.door)
        (map (λ w. worker_with (A.acceptor_view w.door) w.sessions.items w.short w.passes) workers.items) }
    ensures sessions { map (λ s. s.items) result.sessions.items ≡ map (λ w. w.sessions)
        (map (λ w. worker_with (A.acceptor_view w.door) w.sessions.items w.short w.passes) workers.items) }
    ensures short { result.short ≡ workers_short
        (map (λ w. worker_with (A.acceptor_view w.door) w.sessions.items w.short w.passes) workers.items) }
{
    let mut gathered = room;
    let mut left = VecDeque::from_vec(workers);
    while let Some(worker) = left.pop_front() {
        gather_one(turns, pool, passes, worker, &mut gathered);
    }
    gathered
}
