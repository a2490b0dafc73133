ghost use Rattle.relay_ways.specs.Way.{Copies};

use crate::{WayEnd, copy_way};
use fw_outside::{Sink, Source};
use std::thread::{Threads, join_mut};

/// Two ways at once: from the client, `from`, to its server, `server_out`, with the first limit, and from the server,
/// `server_in`, to the client, `to`, with the second. A way that ends leaves the other going. Where no thread can be
/// made the way from the client begins when the other has ended.
pub fn both_ways<
    H: Threads + Sync,
    S: Source + Send,
    K: Sink + Send,
    I: Source + Send,
    O: Sink + Send,
>(
    rt: &H,
    from: &mut S,
    to: &mut K,
    server_in: &mut I,
    server_out: &mut O,
    up_limit: u64,
    down_limit: u64,
) -> (WayEnd, WayEnd)
    ensures up { Copies up_limit result.0 (S.source_view from.old) (S.source_view from.new)
        (O.sink_view server_out.old) (O.sink_view server_out.new) }
    ensures down { Copies down_limit result.1 (I.source_view server_in.old) (I.source_view server_in.new)
        (K.sink_view to.old) (K.sink_view to.new) }
{
    let mut up = || -> WayEnd
        ensures { Copies up_limit result (S.source_view from.entry.now) (S.source_view from.exit.now)
            (O.sink_view server_out.entry.now) (O.sink_view server_out.exit.now) }
    { copy_way(from, server_out, up_limit) };
    let mut down = || -> WayEnd
        ensures { Copies down_limit result (I.source_view server_in.entry.now) (I.source_view server_in.exit.now)
            (K.sink_view to.entry.now) (K.sink_view to.exit.now) }
    { copy_way(server_in, to, down_limit) };
    join_mut(rt, &mut up, &mut down)
}
