//! Ways that begin with bytes which were taken before.
ghost use Rattle.std.specs.Prelude.{◌≤◌, length};
ghost use Rattle.relay_ways.specs.Carried.{Carries, GivesAhead};

use crate::WayEnd;
use crate::copying::copy_on;
use fw_outside::{Failed, Sink, Source};
use std::thread::{Threads, join_mut};

// Gives the sink these bytes, if there are any.
fn give_ahead<K: Sink>(ahead: &[u8], to: &mut K) -> Result<(), Failed>
    ensures { GivesAhead result ahead.now (K.sink_view to.old) (K.sink_view to.new) }
{
    if ahead.is_empty() {
        return Ok(());
    }
    to.give(ahead)
}

/// Gives the sink what was taken before, at most 4,096 bytes, and then does as `copy_way` does. `left` is the limit, and
/// then how many bytes may still be taken.
pub fn carry_way<S: Source, K: Sink>(
    ahead: &[u8],
    from: &mut S,
    to: &mut K,
    left: &mut u64,
) -> WayEnd
    requires { length ahead.now ≤ 4096 }
    ensures { Carries ahead.now left.old left.new result (S.source_view from.old) (S.source_view from.new)
        (K.sink_view to.old) (K.sink_view to.new) }
{
    match give_ahead(ahead, to) {
        Ok(()) => copy_on(from, to, left),
        Err(_) => WayEnd::WriteFault,
    }
}

/// Two ways at once, as `both_ways`, each of which begins with what was taken before for it: `up_ahead` of the client, and
/// `down_ahead` of the server. `up_left` and `down_left` are the limits, and then how many bytes may still be taken.
pub fn carry_both<
    H: Threads + Sync,
    S: Source + Send,
    K: Sink + Send,
    I: Source + Send,
    O: Sink + Send,
>(
    rt: &H,
    up_ahead: &[u8],
    from: &mut S,
    to: &mut K,
    down_ahead: &[u8],
    server_in: &mut I,
    server_out: &mut O,
    up_left: &mut u64,
    down_left: &mut u64,
) -> (WayEnd, WayEnd)
    requires up_ahead { length up_ahead.now ≤ 4096 }
    requires down_ahead { length down_ahead.now ≤ 4096 }
    ensures up { Carries up_ahead.now up_left.old up_left.new result.0 (S.source_view from.old) (S.source_view from.new)
        (O.sink_view server_out.old) (O.sink_view server_out.new) }
    ensures down { Carries down_ahead.now down_left.old down_left.new result.1 (I.source_view server_in.old)
        (I.source_view server_in.new) (K.sink_view to.old) (K.sink_view to.new) }
{
    let mut up = || -> WayEnd
        requires { length up_ahead.now ≤ 4096 }
        ensures { Carries up_ahead.entry.now up_left.entry.now up_left.exit.now result
            (S.source_view from.entry.now) (S.source_view from.exit.now)
            (O.sink_view server_out.entry.now) (O.sink_view server_out.exit.now) }
    { carry_way(up_ahead, from, server_out, up_left) };
    let mut down = || -> WayEnd
        requires { length down_ahead.now ≤ 4096 }
        ensures { Carries down_ahead.entry.now down_left.entry.now down_left.exit.now result
            (I.source_view server_in.entry.now) (I.source_view server_in.exit.now)
            (K.sink_view to.entry.now) (K.sink_view to.exit.now) }
    { carry_way(down_ahead, server_in, to, down_left) };
    join_mut(rt, &mut up, &mut down)
}
