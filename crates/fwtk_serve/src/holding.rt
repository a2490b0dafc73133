//! One session.
ghost use Rattle.std.specs.Prelude.{◌≡◌};
ghost use Rattle.client_service.specs.Conn.{IsServed};
ghost use Rattle.fwtk_serve.specs.Passes.{AreOf};
ghost use Rattle.fwtk_serve.specs.Sessions.{GoesAs, devices_of, visit_with};
ghost use Rattle.fwtk_serve.specs.Stepping.{Holds};
ghost use Rattle.spool_pool.specs.Known.{store_of};

use crate::passes::{Passes, PassesOf};
use crate::report::Served;
use acceptors::{Acceptor, Caller, CallerOf};
use auth_port::{Book, SharedBook, Turns};
use client_service::conn;
use fw_disk::Disk;
use fw_outside::{Clock, Dialer, Dice, Keeper, Sink, Source};
use fw_types::Ending;
use gate_rules::Rules;
use spool_pool::{Pool, PoolSeat};
use std::alloc::Global;
use std::sync::Wait;
use std::thread::Threads;

// The session of a client, over this port and this seat.
fn attend<'b, 's, H, K, D, F, T, L, I, C, R>(
    rt: &H,
    alloc: Global,
    rules: &Rules,
    port: &mut SharedBook<'b, H, K>,
    seat: &mut PoolSeat<'s, H, D>,
    caller: &mut Caller<F, T, L, I, C, R>,
) -> Ending
where
    H: Threads + Wait + Sync,
    K: Keeper,
    D: Disk,
    F: Source + Send,
    T: Sink + Send,
    L: Sink,
    I: Dialer,
    C: Clock,
    R: Dice,
    requires service { IsServed caller.old.service rules.now }
    ensures goes { GoesAs caller.old.service rules.now caller.old.peer result
        (devices_of (visit_with caller.old.service caller.old.peer (F.source_view caller.old.from)
        (T.sink_view caller.old.to) (L.sink_view caller.old.logs) (I.dialer_view caller.old.dialer)
        (C.clock_view caller.old.clock) (R.dice_view caller.old.dice)) port.old (store_of seat.old))
        (devices_of (visit_with caller.new.service caller.new.peer (F.source_view caller.new.from)
        (T.sink_view caller.new.to) (L.sink_view caller.new.logs) (I.dialer_view caller.new.dialer)
        (C.clock_view caller.new.clock) (R.dice_view caller.new.dice)) port.new (store_of seat.new)) }
    ensures service { caller.new.service ≡ caller.old.service }
    ensures peer { caller.new.peer ≡ caller.old.peer }
    ensures origin { port.new.origin ≡ port.old.origin }
{
    conn(
        rt,
        alloc,
        &caller.service,
        rules,
        &caller.peer,
        port,
        &mut caller.from,
        &mut caller.to,
        &mut caller.logs,
        &mut caller.dialer,
        seat,
        &mut caller.clock,
        &mut caller.dice,
    )
}

/// Serves a client by these rules, over the port and the mail store of these passes. What it leaves of the client's devices, what
/// the passes know then, and what is reported.
pub(crate) fn hold<H, K, A, D>(
    rt: &H,
    alloc: Global,
    rules: &Rules,
    turns: &Turns<Book<K>>,
    pool: &Pool<D>,
    passes: PassesOf<K, D>,
    caller: CallerOf<A>,
) -> (CallerOf<A>, PassesOf<K, D>, Served)
where
    H: Threads + Wait + Sync,
    K: Keeper,
    A: Acceptor,
    D: Disk,
    requires passes { AreOf turns.now pool.now passes }
    requires service { IsServed caller.service rules.now }
    ensures holds { Holds rules.now turns.now passes result.1
        (visit_with caller.service caller.peer (A.From.source_view caller.from) (A.To.sink_view caller.to)
        (A.Logs.sink_view caller.logs) (A.Dial.dialer_view caller.dialer) (A.Tick.clock_view caller.clock)
        (A.Rand.dice_view caller.dice))
        (visit_with result.0.service result.0.peer (A.From.source_view result.0.from) (A.To.sink_view result.0.to)
        (A.Logs.sink_view result.0.logs) (A.Dial.dialer_view result.0.dialer) (A.Tick.clock_view result.0.clock)
        (A.Rand.dice_view result.0.dice))
        result.2 }
    ensures own { AreOf turns.now pool.now result.1 }
{
    let mut caller = caller;
    let Passes { book, mail } = passes;
    let mut port = SharedBook::new(rt, alloc, turns, book);
    let mut seat = PoolSeat::new(rt, pool, mail);
    let ending = attend(rt, alloc, rules, &mut port, &mut seat, &mut caller);
    let (book, places) = port.into_pass();
    let mail = seat.into_pass();
    let served = Served {
        service: caller.service.twin(),
        peer: caller.peer.twin(),
        ending,
        places,
    };
    (caller, Passes { book, mail }, served)
}
