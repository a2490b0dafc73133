//! What a worker does at its door.
ghost use Rattle.std.specs.Prelude.{◌≡◌, ◌<◌, All, vec_len};
ghost use Rattle.std.specs.Vec.{vec_capacity};
ghost use Rattle.acceptors.specs.AcceptorView.{HasOut, IsFresh};
ghost use Rattle.fwtk_serve.specs.Meeting.{HasPasses, HasWorked, IsReady};
ghost use Rattle.fwtk_serve.specs.Passes.{AreOf};
ghost use Rattle.fwtk_serve.specs.RulesFor.{MayServe, no_rules};
ghost use Rattle.fwtk_serve.specs.Sessions.{visit_with};
ghost use Rattle.fwtk_serve.specs.Stepping.{ServesOne, StepsAs, worker_with};

use crate::choosing::rules_for;
use crate::holding::hold;
use crate::step::Step;
use crate::worker::WorkerOf;
use acceptors::{Acceptor, CallerOf, Knock};
use auth_port::{Book, Turns};
use fw_disk::Disk;
use fw_outside::Keeper;
use gate_rules::{Rules, Service};
use spool_pool::Pool;
use std::alloc::Global;
use std::sync::Wait;
use std::thread::Threads;

// Serves a client that came, notes that, for which there is room, and gives it back to the door.
fn serve_one<H, K, A, D>(
    rt: &H,
    alloc: Global,
    rules: &[(Service, Rules)],
    none: &Rules,
    turns: &Turns<Book<K>>,
    pool: &Pool<D>,
    worker: &mut WorkerOf<A, K, D>,
    caller: CallerOf<A>,
)
where
    H: Threads + Wait + Sync,
    K: Keeper,
    A: Acceptor,
    D: Disk,
    requires none { none.now ≡ no_rules }
    requires may { All MayServe rules.now }
    requires passes { HasPasses (AreOf turns.now pool.now) worker.old.passes }
    requires room { vec_len worker.old.sessions < vec_capacity worker.old.sessions }
    requires out { HasOut (A.acceptor_view worker.old.door) }
    requires fresh { IsFresh (visit_with caller.service caller.peer (A.From.source_view caller.from) (A.To.sink_view caller.to)
        (A.Logs.sink_view caller.logs) (A.Dial.dialer_view caller.dialer) (A.Tick.clock_view caller.clock)
        (A.Rand.dice_view caller.dice)) }
    ensures served { ServesOne rules.now turns.now pool.now
        (worker_with (A.acceptor_view worker.old.door) worker.old.sessions.items worker.old.short worker.old.passes)
        (worker_with (A.acceptor_view worker.new.door) worker.new.sessions.items worker.new.short worker.new.passes)
        (visit_with caller.service caller.peer (A.From.source_view caller.from) (A.To.sink_view caller.to)
        (A.Logs.sink_view caller.logs) (A.Dial.dialer_view caller.dialer) (A.Tick.clock_view caller.clock)
        (A.Rand.dice_view caller.dice)) }
{
    let Some(passes) = worker.passes.take() else {
        unreachable!();
    };
    let chosen = rules_for(rules, none, &caller.service);
    let (caller, passes, served) = hold::<H, K, A, D>(
        rt, alloc, chosen, turns, pool, passes, caller,
    );
    worker.passes = Some(passes);
    worker.sessions.push_reserved(served);
    worker.door.back(caller);
}

// Serves the next client that comes, for whose report it takes the memory first.
fn serve_next<H, K, A, D>(
    rt: &H,
    alloc: Global,
    rules: &[(Service, Rules)],
    none: &Rules,
    turns: &Turns<Book<K>>,
    pool: &Pool<D>,
    worker: &mut WorkerOf<A, K, D>,
) -> Step
where
    H: Threads + Wait + Sync,
    K: Keeper,
    A: Acceptor,
    D: Disk,
    requires none { none.now ≡ no_rules }
    requires may { All MayServe rules.now }
    requires passes { HasPasses (AreOf turns.now pool.now) worker.old.passes }
    ensures { StepsAs result rules.now turns.now pool.now
        (worker_with (A.acceptor_view worker.old.door) worker.old.sessions.items worker.old.short worker.old.passes)
        (worker_with (A.acceptor_view worker.new.door) worker.new.sessions.items worker.new.short worker.new.passes) }
{
    if worker.sessions.reserve(1).is_err() {
        return Step::Short;
    }
    match worker.door.next() {
        Knock::Session(caller) => {
            serve_one(rt, alloc, rules, none, turns, pool, worker, caller);
            Step::Served
        }
        Knock::End => Step::Over,
        Knock::Failed => Step::Over,
    }
}

/// Serves the clients of its door until no more come, or there is no memory to report one more.
pub(crate) fn work<H, K, A, D>(
    rt: &H,
    alloc: Global,
    rules: &[(Service, Rules)],
    none: &Rules,
    turns: &Turns<Book<K>>,
    pool: &Pool<D>,
    worker: &mut WorkerOf<A, K, D>,
)
where
    H: Threads + Wait + Sync,
    K: Keeper,
    A: Acceptor,
    D: Disk,
    requires none { none.now ≡ no_rules }
    requires may { All MayServe rules.now }
    requires ready { IsReady turns.now pool.now
        (worker_with (A.acceptor_view worker.old.door) worker.old.sessions.items worker.old.short worker.old.passes) }
    ensures { HasWorked rules.now turns.now pool.now
        (worker_with (A.acceptor_view worker.old.door) worker.old.sessions.items worker.old.short worker.old.passes)
        (worker_with (A.acceptor_view worker.new.door) worker.new.sessions.items worker.new.short worker.new.passes) }
{
    for _ in rt.forever() {
        match serve_next(rt, alloc, rules, none, turns, pool, worker) {
            Step::Served => (),
            Step::Over => return,
            Step::Short => {
                worker.short = true;
                return;
            }
        }
    }
    unreachable!()
}
