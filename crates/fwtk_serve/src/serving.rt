//! A server.
ghost use Rattle.std.specs.Prelude.{◌≡◌, ℕ, ◌-◌, ◌^◌, ◌<◌, ◌≤◌, [], All, IfErr, IfOk, length, map, min};
ghost use Rattle.std.specs.Vec.{vec_capacity};
ghost use Rattle.auth_machine.specs.History.{CountsUnkept, HasRecords, IsLegal};
ghost use Rattle.auth_machine.specs.Port.{book_origin};
ghost use Rattle.fwtk_serve.specs.Clerks.{HandsMore, HandsToEnd, clerk_with};
ghost use Rattle.fwtk_serve.specs.Meeting.{HaveWorked, IsReady};
ghost use Rattle.fwtk_serve.specs.Passes.{AreOf, first_of};
ghost use Rattle.fwtk_serve.specs.Rounds.{HandsOnAll, HandsOnSlots, Settles, SettlesSlots};
ghost use Rattle.fwtk_serve.specs.RulesFor.{MayServe, no_rules};
ghost use Rattle.fwtk_serve.specs.Stepping.{worker_with};
ghost use Rattle.fwtk_serve.specs.Working.{ServedAll};
ghost use Rattle.spool_pool.specs.Known.{bare, store_of};
ghost use mathlib.Core.List.{IsPrefix};

use crate::beside::run_beside;
use crate::choosing::no_rules;
use crate::crew::work_all;
use crate::handing_on::{hand_on, hand_on_meanwhile};
use crate::meeting::{Gathered, meet_all};
use crate::passes::{Passes, PassesOf};
use crate::report::Report;
use crate::starting::workers_of;
use crate::sums::Sums;
use crate::worker::WorkerOf;
use acceptors::{Acceptor, Pacer};
use auth_events::Entry;
use auth_port::{Book, Turns};
use fw_disk::Disk;
use fw_outside::{Dialer, Keeper, Sink};
use fw_types::NoMemory;
use gate_rules::{Rules, Service};
use smapd_queue::Mailer;
use spool_pool::{Pool, PoolPass, PoolSeat};
use spool_rack::Rack;
use std::alloc::Global;
use std::sync::Wait;
use std::sync::atomic::AtomicU64;
use std::thread::Threads;

// The keeper and the history of a book, whose history shows what it is.
fn close<K: Keeper>(book: Book<K>) -> (K, Vec<Entry>)
    ensures history { result.1.items ≡ book.history }
    ensures legal { IsLegal book.origin result.1.items }
    ensures within { length result.1.items ≤ book.limit }
    ensures keeper { HasRecords book.origin result.1.items (K.keeper_view result.0) }
    ensures unkept { CountsUnkept book.failed_before result.1.items (K.keeper_view result.0) }
{
    let _ = book.history();
    book.close()
}

// All workers work, in threads of theirs. Meanwhile mail is handed on in this one, in rounds of at most so many turns.
fn serve_meanwhile<'a, H, K, A, D, G, P>(
    rt: &'a H,
    alloc: Global,
    rules: &[(Service, Rules)],
    none: &Rules,
    turns: &Turns<Book<K>>,
    pool: &'a Pool<D>,
    workers: Vec<WorkerOf<A, K, D>>,
    seat: &mut PoolSeat<'a, H, D>,
    mailers: &mut Vec<Box<dyn Mailer>>,
    each: u32,
    logs: &mut G,
    pacer: &mut P,
    sums: &mut Sums,
) -> Vec<WorkerOf<A, K, D>>
where
    H: Threads + Wait + Sync,
    K: Keeper + Send,
    A: Acceptor + Send,
    A::Logs: Send,
    A::Dial: Send,
    A::Tick: Send,
    A::Rand: Send,
    <A::Dial as Dialer>::Door: Send,
    D: Disk + Send,
    G: Sink,
    P: Pacer,
    requires none { none.now ≡ no_rules }
    requires may { All MayServe rules.now }
    requires ready { All (λ w. IsReady turns.now pool.now
        (worker_with (A.acceptor_view w.door) w.sessions.items w.short w.passes)) workers.items }
    requires some { 0 < length mailers.old.items }
    ensures workers { HaveWorked rules.now turns.now pool.now
        (map (λ w. worker_with (A.acceptor_view w.door) w.sessions.items w.short w.passes) workers.items)
        (map (λ w. worker_with (A.acceptor_view w.door) w.sessions.items w.short w.passes) result.items) }
    ensures hands { HandsMore each
        (clerk_with (store_of seat.old) (map (λ m. mailer_view m) mailers.old.items) (G.sink_view logs.old) sums.old)
        (clerk_with (store_of seat.new) (map (λ m. mailer_view m) mailers.new.items) (G.sink_view logs.new) sums.new) }
    ensures many { length mailers.new.items ≡ length mailers.old.items }
{
    let ended = AtomicU64::new(0);
    let told = &ended;
    let crew = move || -> Vec<WorkerOf<A, K, D>>
        requires { (none.now ≡ no_rules) × All MayServe rules.now
            × All (λ w. IsReady turns.now pool.now (worker_with (A.acceptor_view w.door) w.sessions.items w.short w.passes)) workers.items }
        ensures { HaveWorked rules.entry.now turns.entry.now pool.entry.now
            (map (λ w. worker_with (A.acceptor_view w.door) w.sessions.items w.short w.passes) workers.items)
            (map (λ w. worker_with (A.acceptor_view w.door) w.sessions.items w.short w.passes) result.items) }
    { work_all(rt, alloc, rules, none, turns, pool, told, workers) };
    let mut meanwhile = ||
        requires { 0 < length mailers.now.items }
        ensures { HandsMore each
            (clerk_with (store_of seat.entry.now) (map (λ m. mailer_view m) mailers.entry.now.items) (G.sink_view logs.entry.now) sums.entry.now)
            (clerk_with (store_of seat.exit.now) (map (λ m. mailer_view m) mailers.exit.now.items) (G.sink_view logs.exit.now) sums.exit.now)
            × (length mailers.exit.now.items ≡ length mailers.entry.now.items) }
    { hand_on_meanwhile(rt, alloc, told, pacer, seat, mailers, each, logs, sums) };
    let (workers, ()) = run_beside(rt, crew, &mut meanwhile);
    workers
}

// So, and mail is handed on once more when all workers have ended.
fn serve_all<'a, H, K, A, D, G, P>(
    rt: &'a H,
    alloc: Global,
    rules: &[(Service, Rules)],
    none: &Rules,
    turns: &Turns<Book<K>>,
    pool: &'a Pool<D>,
    workers: Vec<WorkerOf<A, K, D>>,
    seat: &mut PoolSeat<'a, H, D>,
    mailers: &mut Vec<Box<dyn Mailer>>,
    each: u32,
    logs: &mut G,
    pacer: &mut P,
    sums: &mut Sums,
) -> Vec<WorkerOf<A, K, D>>
where
    H: Threads + Wait + Sync,
    K: Keeper + Send,
    A: Acceptor + Send,
    A::Logs: Send,
    A::Dial: Send,
    A::Tick: Send,
    A::Rand: Send,
    <A::Dial as Dialer>::Door: Send,
    D: Disk + Send,
    G: Sink,
    P: Pacer,
    requires none { none.now ≡ no_rules }
    requires may { All MayServe rules.now }
    requires ready { All (λ w. IsReady turns.now pool.now
        (worker_with (A.acceptor_view w.door) w.sessions.items w.short w.passes)) workers.items }
    requires some { 0 < length mailers.old.items }
    ensures workers { HaveWorked rules.now turns.now pool.now
        (map (λ w. worker_with (A.acceptor_view w.door) w.sessions.items w.short w.passes) workers.items)
        (map (λ w. worker_with (A.acceptor_view w.door) w.sessions.items w.short w.passes) result.items) }
    ensures hands { HandsToEnd each
        (clerk_with (store_of seat.old) (map (λ m. mailer_view m) mailers.old.items) (G.sink_view logs.old) sums.old)
        (clerk_with (store_of seat.new) (map (λ m. mailer_view m) mailers.new.items) (G.sink_view logs.new) sums.new) }
{
    let workers = serve_meanwhile(
        rt, alloc, rules, none, turns, pool, workers, seat, mailers, each, logs, pacer, sums,
    );
    hand_on(alloc, seat, mailers, each, logs, sums);
    workers
}

// The workers begin, work, and meet, while mail is handed on; and book and pool are closed. There is room for the workers, and for
// what is gathered of them.
fn serve_over<H, K, A, D, G, P>(
    rt: &H,
    alloc: Global,
    rules: &[(Service, Rules)],
    none: &Rules,
    turns: Turns<Book<K>>,
    pool: Pool<D>,
    passes: PassesOf<K, D>,
    doors: Vec<A>,
    room: Vec<WorkerOf<A, K, D>>,
    gathered: Gathered<A>,
    mailers: &mut Vec<Box<dyn Mailer>>,
    each: u32,
    logs: &mut G,
    pacer: &mut P,
) -> Report<K, A, D>
where
    H: Threads + Wait + Sync,
    K: Keeper + Send,
    A: Acceptor + Send,
    A::Logs: Send,
    A::Dial: Send,
    A::Tick: Send,
    A::Rand: Send,
    <A::Dial as Dialer>::Door: Send,
    D: Disk + Send,
    G: Sink,
    P: Pacer,
    requires none { none.now ≡ no_rules }
    requires may { All MayServe rules.now }
    requires passes { AreOf turns pool passes }
    requires first { passes.book ≡ first_of turns passes.book.seen }
    requires begun { turns.begun ≡ length passes.book.seen }
    requires few { length doors.items < 2 ^ 64 }
    requires mail { passes.mail ≡ bare passes.mail.handed.home (2 ^ 64) passes.mail.handed.began }
    requires workers { (room.items ≡ []) × (length doors.items ≤ vec_capacity room) }
    requires gathers { (gathered.doors.items ≡ []) × (gathered.sessions.items ≡ []) × (gathered.short ≡ 0) }
    requires doors { length doors.items ≤ vec_capacity gathered.doors }
    requires sessions { length doors.items ≤ vec_capacity gathered.sessions }
    requires some { 0 < length mailers.old.items }
    ensures legal { IsLegal turns.origin.origin result.history.items }
    ensures begins { IsPrefix passes.book.seen result.history.items }
    ensures within { length result.history.items ≤ turns.limit }
    ensures keeper { HasRecords turns.origin.origin result.history.items (K.keeper_view result.keeper) }
    ensures unkept { CountsUnkept turns.origin.failed_before result.history.items (K.keeper_view result.keeper) }
    ensures doors { ServedAll rules.now passes.book.seen result.history.items turns.limit turns.origin
        (map A.acceptor_view doors.items) (map A.acceptor_view result.doors.items)
        (map (λ s. s.items) result.sessions.items) result.short result.mail }
    ensures hands { HandsOnAll each result.round result.starved result.mail
        (map (λ m. mailer_view m) mailers.old.items) (map (λ m. mailer_view m) mailers.new.items)
        (G.sink_view logs.old) (G.sink_view logs.new) }
    ensures settles { Settles passes.mail.handed.began result.mail result.rack }
{
    let mut passes = passes;
    let workers = workers_of(alloc, &turns, &pool, &mut passes, doors, room);
    let Passes { book, mail } = passes;
    let mut seat = PoolSeat::new(rt, &pool, mail);
    let mut sums = Sums::none();
    let workers = serve_all(
        rt, alloc, rules, none, &turns, &pool, workers, &mut seat, mailers, each, logs, pacer,
        &mut sums,
    );
    let mail = seat.into_pass();
    let mut passes = Passes { book, mail };
    let Gathered {
        doors,
        sessions,
        short,
    } = meet_all(&turns, &pool, &mut passes, workers, gathered);
    let Passes { book, mail } = passes;
    let (keeper, history) = close(turns.close(rt, book));
    let (rack, mail) = pool.close(rt, mail);
    Report {
        keeper,
        history,
        sessions,
        doors,
        short,
        starved: sums.starved,
        rack,
        round: sums.round,
        mail,
    }
}

// As many turns as there may be slots, as a number of 32 bits.
fn turns_for(slots: usize) -> u32
    ensures { result ≡ min slots (2 ^ 32 - 1) }
{
    u32::try_from(slots).unwrap_or(u32::MAX)
}

// What takes memory before any client is served: the rules of a service that has none, and room for workers and for what is
// gathered of them.
#[derive(Drop)]
struct Room<W, A> {
    none: Rules,
    workers: Vec<W>,
    gathered: Gathered<A>,
}

// Room for so many workers.
fn room_for<W: Drop, A: Acceptor>(alloc: Global, count: usize) -> Result<Room<W, A>, NoMemory>
    ensures none { IfOk result (λ room. room.none ≡ no_rules) }
    ensures workers { IfOk result (λ room. (room.workers.items ≡ []) × (count ≤ vec_capacity room.workers)) }
    ensures empty { IfOk result (λ room. (room.gathered.doors.items ≡ []) × (room.gathered.sessions.items ≡ [])
        × (room.gathered.short ≡ 0)) }
    ensures doors { IfOk result (λ room. count ≤ vec_capacity room.gathered.doors) }
    ensures sessions { IfOk result (λ room. count ≤ vec_capacity room.gathered.sessions) }
{
    Ok(Room {
        none: no_rules(alloc)?,
        workers: Vec::with_capacity(alloc, count)?,
        gathered: Gathered {
            doors: Vec::with_capacity(alloc, count)?,
            sessions: Vec::with_capacity(alloc, count)?,
            short: 0,
        },
    })
}

// The book is shared; the pool is already, of which this pass has all parts.
fn serve_book<H, K, A, D, G, P>(
    rt: &H,
    alloc: Global,
    rules: &[(Service, Rules)],
    none: &Rules,
    book: Book<K>,
    pool: Pool<D>,
    mail: PoolPass<D>,
    doors: Vec<A>,
    room: Vec<WorkerOf<A, K, D>>,
    gathered: Gathered<A>,
    mailers: &mut Vec<Box<dyn Mailer>>,
    each: u32,
    logs: &mut G,
    pacer: &mut P,
) -> Result<Report<K, A, D>, NoMemory>
where
    H: Threads + Wait + Sync,
    K: Keeper + Send,
    A: Acceptor + Send,
    A::Logs: Send,
    A::Dial: Send,
    A::Tick: Send,
    A::Rand: Send,
    <A::Dial as Dialer>::Door: Send,
    D: Disk + Send,
    G: Sink,
    P: Pacer,
    requires none { none.now ≡ no_rules }
    requires may { All MayServe rules.now }
    requires mail { mail ≡ bare pool.home (2 ^ 64) mail.handed.began }
    requires workers { (room.items ≡ []) × (length doors.items ≤ vec_capacity room) }
    requires gathers { (gathered.doors.items ≡ []) × (gathered.sessions.items ≡ []) × (gathered.short ≡ 0) }
    requires doors { length doors.items ≤ vec_capacity gathered.doors }
    requires sessions { length doors.items ≤ vec_capacity gathered.sessions }
    requires some { 0 < length mailers.old.items }
    ensures legal { IfOk result (λ report. IsLegal book.origin report.history.items) }
    ensures begins { IfOk result (λ report. IsPrefix book.history report.history.items) }
    ensures within { IfOk result (λ report. length report.history.items ≤ book.limit) }
    ensures keeper { IfOk result (λ report. HasRecords book.origin report.history.items (K.keeper_view report.keeper)) }
    ensures unkept { IfOk result (λ report. CountsUnkept book.failed_before report.history.items
        (K.keeper_view report.keeper)) }
    ensures doors { IfOk result (λ report. ServedAll rules.now book.history report.history.items book.limit (book_origin book)
        (map A.acceptor_view doors.items) (map A.acceptor_view report.doors.items)
        (map (λ s. s.items) report.sessions.items) report.short report.mail) }
    ensures hands { IfOk result (λ report. HandsOnAll each report.round report.starved report.mail
        (map (λ m. mailer_view m) mailers.old.items) (map (λ m. mailer_view m) mailers.new.items)
        (G.sink_view logs.old) (G.sink_view logs.new)) }
    ensures settles { IfOk result (λ report. Settles mail.handed.began report.mail report.rack) }
    ensures unused { IfErr result (λ lack. (mailers.new ≡ mailers.old) × (logs.new ≡ logs.old)) }
{
    match Turns::new(alloc, book) {
        Ok((turns, book)) => Ok(serve_over(
            rt,
            alloc,
            rules,
            none,
            turns,
            pool,
            Passes { book, mail },
            doors,
            room,
            gathered,
            mailers,
            each,
            logs,
            pacer,
        )),
        Err((_, NoMemory)) => Err(NoMemory),
    }
}

// The rack is shared, and so is the book.
fn serve_rack<H, K, A, D, G, P>(
    rt: &H,
    alloc: Global,
    rules: &[(Service, Rules)],
    none: &Rules,
    book: Book<K>,
    rack: Rack<D>,
    doors: Vec<A>,
    room: Vec<WorkerOf<A, K, D>>,
    gathered: Gathered<A>,
    mailers: &mut Vec<Box<dyn Mailer>>,
    logs: &mut G,
    pacer: &mut P,
) -> Result<Report<K, A, D>, NoMemory>
where
    H: Threads + Wait + Sync,
    K: Keeper + Send,
    A: Acceptor + Send,
    A::Logs: Send,
    A::Dial: Send,
    A::Tick: Send,
    A::Rand: Send,
    <A::Dial as Dialer>::Door: Send,
    D: Disk + Send,
    G: Sink,
    P: Pacer,
    requires none { none.now ≡ no_rules }
    requires may { All MayServe rules.now }
    requires workers { (room.items ≡ []) × (length doors.items ≤ vec_capacity room) }
    requires gathers { (gathered.doors.items ≡ []) × (gathered.sessions.items ≡ []) × (gathered.short ≡ 0) }
    requires doors { length doors.items ≤ vec_capacity gathered.doors }
    requires sessions { length doors.items ≤ vec_capacity gathered.sessions }
    requires some { 0 < length mailers.old.items }
    ensures legal { IfOk result (λ report. IsLegal book.origin report.history.items) }
    ensures begins { IfOk result (λ report. IsPrefix book.history report.history.items) }
    ensures within { IfOk result (λ report. length report.history.items ≤ book.limit) }
    ensures keeper { IfOk result (λ report. HasRecords book.origin report.history.items (K.keeper_view report.keeper)) }
    ensures unkept { IfOk result (λ report. CountsUnkept book.failed_before report.history.items
        (K.keeper_view report.keeper)) }
    ensures doors { IfOk result (λ report. ServedAll rules.now book.history report.history.items book.limit (book_origin book)
        (map A.acceptor_view doors.items) (map A.acceptor_view report.doors.items)
        (map (λ s. s.items) report.sessions.items) report.short report.mail) }
    ensures hands { IfOk result (λ report. HandsOnSlots rack.queues report.round report.starved report.mail
        (map (λ m. mailer_view m) mailers.old.items) (map (λ m. mailer_view m) mailers.new.items)
        (G.sink_view logs.old) (G.sink_view logs.new)) }
    ensures settles { IfOk result (λ report. SettlesSlots rack.queues report.mail report.rack) }
    ensures unused { IfErr result (λ lack. (mailers.new ≡ mailers.old) × (logs.new ≡ logs.old)) }
{
    let each = turns_for(rack.room());
    match Pool::new(rt, alloc, rack) {
        Ok((pool, mail)) => serve_book(
            rt, alloc, rules, none, book, pool, mail, doors, room, gathered, mailers, each, logs,
            pacer,
        ),
        Err((_, NoMemory)) => Err(NoMemory),
    }
}

/// Serves the clients of all doors over one book and one spool, side by side, until no more come, by the rules of their services; a
/// client whose service has none is denied by line 0. Each door has a worker, and each worker a thread; one for which none can be
/// started is run by the thread of another, behind that one's work, and if none at all can be started by this one. Before each
/// client its worker takes the memory to report it; a worker that finds none ends.
///
/// Meanwhile this thread hands on mail, in rounds of as many turns as the rack has room for slots, with a rest after each, until all
/// workers have ended, and once more. A round that fails adds the numbers that it came to, and the next one follows.
///
/// It waits for the clients, so that it returns isn't promised. Want of memory is answered before any client is served, and what
/// was handed in by value is dropped then: so it is in the code, and no clause says it, but that mailers and log are as they were.
pub fn serve<H, K, A, D, G, P>(
    rt: &H,
    alloc: Global,
    rules: &[(Service, Rules)],
    book: Book<K>,
    doors: Vec<A>,
    rack: Rack<D>,
    mailers: &mut Vec<Box<dyn Mailer>>,
    logs: &mut G,
    pacer: &mut P,
) -> Result<Report<K, A, D>, NoMemory>
where
    H: Threads + Wait + Sync,
    K: Keeper + Send,
    A: Acceptor + Send,
    A::Logs: Send,
    A::Dial: Send,
    A::Tick: Send,
    A::Rand: Send,
    <A::Dial as Dialer>::Door: Send,
    D: Disk + Send,
    G: Sink,
    P: Pacer,
    // The rules of the plug are their port's; none are for the access wrapper.
    requires rules { All MayServe rules.now }
    requires some { 0 < length mailers.old.items }
    // The history is legal from what the book had loaded, begins with what the book had, and has no more entries than fit.
    ensures legal { IfOk result (λ report. IsLegal book.origin report.history.items) }
    ensures begins { IfOk result (λ report. IsPrefix book.history report.history.items) }
    ensures within { IfOk result (λ report. length report.history.items ≤ book.limit) }
    // The keeper has exactly the records after the history, where it tells, and has counted each that it didn't keep.
    ensures keeper { IfOk result (λ report. HasRecords book.origin report.history.items (K.keeper_view report.keeper)) }
    ensures unkept { IfOk result (λ report. CountsUnkept book.failed_before report.history.items
        (K.keeper_view report.keeper)) }
    // Of each door, in order: the clients that it handed out and took back, where it tells them, with the session of each over
    // its devices, and the door's end. Each entry that came to what the book had is of exactly one session. What was put into the
    // spool is what the sessions kept, in their order, and all that failed there is counted.
    ensures doors { IfOk result (λ report. ServedAll rules.now book.history report.history.items book.limit (book_origin book)
        (map A.acceptor_view doors.items) (map A.acceptor_view report.doors.items)
        (map (λ s. s.items) report.sessions.items) report.short report.mail) }
    // The mail was handed on in rounds as `smapd_round` says, each of which might take a turn of each slot (or 2^32 - 1): what was released, set
    // aside and broke, what the mailers took, by which lines the log grew, and what the rounds add up to.
    ensures hands { IfOk result (λ report. HandsOnSlots rack.queues report.round report.starved report.mail
        (map (λ m. mailer_view m) mailers.old.items) (map (λ m. mailer_view m) mailers.new.items)
        (G.sink_view logs.old) (G.sink_view logs.new)) }
    // No message is lost, and none stands twice: those that were in the rack, and those that were put, are those that were
    // released or set aside, and those that are in the rack now.
    ensures settles { IfOk result (λ report. SettlesSlots rack.queues report.mail report.rack) }
    // For want of memory mailers and log are as they were.
    ensures unused { IfErr result (λ lack. (mailers.new ≡ mailers.old) × (logs.new ≡ logs.old)) }
{
    let Room {
        none,
        workers,
        gathered,
    } = room_for(alloc, doors.len())?;
    serve_rack(
        rt, alloc, rules, &none, book, rack, doors, workers, gathered, mailers, logs, pacer,
    )
}
