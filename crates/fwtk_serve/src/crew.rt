//! All workers of a server.
ghost use Rattle.std.specs.Prelude.{◌≡◌, All, map};
ghost use Rattle.fwtk_serve.specs.Meeting.{HasWorked, HaveWorked, IsReady};
ghost use Rattle.fwtk_serve.specs.RulesFor.{MayServe, no_rules};
ghost use Rattle.fwtk_serve.specs.Stepping.{worker_with};

use crate::passes::PassesOf;
use crate::worker::{Worker, WorkerOf};
use crate::working::work;
use acceptors::Acceptor;
use auth_port::{Book, Turns};
use fw_disk::Disk;
use fw_outside::{Dialer, Keeper};
use gate_rules::{Rules, Service};
use spool_pool::Pool;
use std::alloc::Global;
use std::sync::Wait;
use std::sync::atomic::{AtomicU64, Ordering};
use std::thread::{Threads, for_each_mut};

// All workers work, each once, as if it were alone; by which threads, no clause says.
fn all_work<H, K, A, D>(
    rt: &H,
    alloc: Global,
    rules: &[(Service, Rules)],
    none: &Rules,
    turns: &Turns<Book<K>>,
    pool: &Pool<D>,
    workers: &mut [WorkerOf<A, K, D>],
)
where
    H: Threads + Wait + Sync,
    K: Keeper + Send,
    A: Acceptor + Send,
    A::Logs: Send,
    A::Dial: Send,
    A::Tick: Send,
    A::Rand: Send,
    <A::Dial as Dialer>::Door: Send,
    D: Disk + Send,
    requires none { none.now ≡ no_rules }
    requires may { All MayServe rules.now }
    requires ready { All (λ w. IsReady turns.now pool.now
        (worker_with (A.acceptor_view w.door) w.sessions.items w.short w.passes)) workers.old }
    ensures { HaveWorked rules.now turns.now pool.now
        (map (λ w. worker_with (A.acceptor_view w.door) w.sessions.items w.short w.passes) workers.old)
        (map (λ w. worker_with (A.acceptor_view w.door) w.sessions.items w.short w.passes) workers.new) }
{
    let threads = workers.len();
    if threads == 0 {
        return;
    }
    let at_door = |_at: usize, worker: &mut Worker<A, PassesOf<K, D>>|
        requires { (none.now ≡ no_rules) × All MayServe rules.now
            × IsReady turns.now pool.now (worker_with (A.acceptor_view worker.now.door) worker.now.sessions.items worker.now.short worker.now.passes) }
        ensures { HasWorked rules.entry.now turns.entry.now pool.entry.now
            (worker_with (A.acceptor_view worker.entry.now.door) worker.entry.now.sessions.items worker.entry.now.short worker.entry.now.passes)
            (worker_with (A.acceptor_view worker.exit.now.door) worker.exit.now.sessions.items worker.exit.now.short worker.exit.now.passes) }
    { work(rt, alloc, rules, none, turns, pool, worker) };
    for_each_mut(rt, workers, threads, &at_door);
}

/// All workers work, and then it is told that all have ended.
pub(crate) fn work_all<H, K, A, D>(
    rt: &H,
    alloc: Global,
    rules: &[(Service, Rules)],
    none: &Rules,
    turns: &Turns<Book<K>>,
    pool: &Pool<D>,
    ended: &AtomicU64,
    workers: Vec<WorkerOf<A, K, D>>,
) -> Vec<WorkerOf<A, K, D>>
where
    H: Threads + Wait + Sync,
    K: Keeper + Send,
    A: Acceptor + Send,
    A::Logs: Send,
    A::Dial: Send,
    A::Tick: Send,
    A::Rand: Send,
    <A::Dial as Dialer>::Door: Send,
    D: Disk + Send,
    requires none { none.now ≡ no_rules }
    requires may { All MayServe rules.now }
    requires ready { All (λ w. IsReady turns.now pool.now
        (worker_with (A.acceptor_view w.door) w.sessions.items w.short w.passes)) workers.items }
    ensures { HaveWorked rules.now turns.now pool.now
        (map (λ w. worker_with (A.acceptor_view w.door) w.sessions.items w.short w.passes) workers.items)
        (map (λ w. worker_with (A.acceptor_view w.door) w.sessions.items w.short w.passes) result.items) }
{
    let mut workers = workers;
    all_work(rt, alloc, rules, none, turns, pool, workers.as_mut_slice());
    ended.store(1, Ordering::SeqCst);
    workers
}
