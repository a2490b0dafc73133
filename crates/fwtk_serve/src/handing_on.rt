//! Handing on mail, while the workers serve.
ghost use Rattle.std.specs.Prelude.{◌≡◌, ◌<◌, length, map};
ghost use Rattle.spool_pool.specs.Known.{store_of};
ghost use Rattle.fwtk_serve.specs.Clerks.{HandsMore, HandsOnce, clerk_with};

use crate::sums::Sums;
use acceptors::Pacer;
use fw_disk::Disk;
use fw_outside::Sink;
use smapd_queue::{Mailer, Round, RoundFault, smapd_round};
use spool_pool::PoolSeat;
use std::alloc::Global;
use std::sync::Wait;
use std::sync::atomic::{AtomicU64, Ordering};

// Whether a hand failed in it, or it didn't go to its end.
fn is_troubled(answer: &Result<Round, RoundFault>) -> bool {
    match answer {
        Ok(round) => round.failed > 0,
        Err(_) => true,
    }
}

/// Holds a round of at most so many turns, and adds what it came to. Whether a hand failed in it, or it didn't go to its end.
pub(crate) fn hand_on<'a, H: Wait, D: Disk, G: Sink>(
    alloc: Global,
    seat: &mut PoolSeat<'a, H, D>,
    mailers: &mut Vec<Box<dyn Mailer>>,
    each: u32,
    logs: &mut G,
    sums: &mut Sums,
) -> bool
    requires { 0 < length mailers.old.items }
    ensures hands { HandsOnce each
        (clerk_with (store_of seat.old) (map (λ m. mailer_view m) mailers.old.items) (G.sink_view logs.old) sums.old)
        (clerk_with (store_of seat.new) (map (λ m. mailer_view m) mailers.new.items) (G.sink_view logs.new) sums.new) }
    ensures many { length mailers.new.items ≡ length mailers.old.items }
{
    let answer = smapd_round(alloc, seat, mailers, each, logs);
    *sums = sums.with(&answer);
    is_troubled(&answer)
}

// Rests behind a round, and for longer behind one that had trouble.
fn rest_behind<P: Pacer>(pacer: &mut P, troubled: bool) {
    if troubled {
        pacer.rest_long();
    } else {
        pacer.rest();
    }
}

/// Holds rounds, with a rest after each, until all workers have ended.
pub(crate) fn hand_on_meanwhile<'a, H: Wait, D: Disk, G: Sink, P: Pacer>(
    rt: &H,
    alloc: Global,
    ended: &AtomicU64,
    pacer: &mut P,
    seat: &mut PoolSeat<'a, H, D>,
    mailers: &mut Vec<Box<dyn Mailer>>,
    each: u32,
    logs: &mut G,
    sums: &mut Sums,
)
    requires { 0 < length mailers.old.items }
    ensures hands { HandsMore each
        (clerk_with (store_of seat.old) (map (λ m. mailer_view m) mailers.old.items) (G.sink_view logs.old) sums.old)
        (clerk_with (store_of seat.new) (map (λ m. mailer_view m) mailers.new.items) (G.sink_view logs.new) sums.new) }
    ensures many { length mailers.new.items ≡ length mailers.old.items }
{
    for _ in rt.forever() {
        if ended.load(Ordering::SeqCst) != 0 {
            return;
        }
        let troubled = hand_on(alloc, seat, mailers, each, logs, sums);
        rest_behind(pacer, troubled);
    }
    unreachable!()
}
