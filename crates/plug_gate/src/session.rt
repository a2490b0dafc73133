//! A session of the plug.
ghost use Rattle.plug_gate.specs.Dialogue.{connect_text, plug_row};
ghost use Rattle.plug_gate.specs.Dummies.{lent};
ghost use Rattle.plug_gate.specs.Laws.{Ends, GivesFronts};
ghost use Rattle.session_acts.specs.Causes.{Caused, RelayKeeps, RelayTakesFor, WaitsFor};
ghost use Rattle.session_acts.specs.Denying.{no_rows};
ghost use Rattle.session_acts.specs.Relayed.{relayed};
ghost use Rattle.session_acts.specs.Session.{RelaySession};

use crate::connect::connect_line;
use crate::dummies::{NoClock, NoDice, NoPort};
use crate::script::PlugScript;
use fw_outside::{Dialer, Sink, Source};
use fw_types::{Dest, Ending, Peer};
use session_acts::relayed_over;
use std::thread::Threads;

/// A session of a client at this port of the gateway, whom the line with this number permits to be linked to the destination:
/// the connect line is logged, the destination asked for, and what both sides say relayed, both ways at once, until both are
/// done; then the link is hung up. At most 2^40 bytes are taken of each.
///
/// The answer is `Done` where both ways were, `NoRoute` where the destination was refused, `LogFault` where the log failed
/// within the line, and then nothing was asked for; else why a way of the relay ended early, which is counted.
pub fn plug_session<H, S, K, G, D>(
    rt: &H,
    port: u16,
    dest: &Dest,
    peer: &Peer,
    line: u32,
    from: &mut S,
    to: &mut K,
    logs: &mut G,
    dialer: &mut D,
) -> Ending
where
    H: Threads + Sync,
    S: Source + Send,
    K: Sink + Send,
    G: Sink,
    D: Dialer,
    ensures session { RelaySession (relayed no_rows) (plug_row (connect_text port peer.now dest.now line) dest.now)
        (lent (S.source_view from.old) (K.sink_view to.old) (G.sink_view logs.old) (D.dialer_view dialer.old))
        (lent (S.source_view from.new) (K.sink_view to.new) (G.sink_view logs.new) (D.dialer_view dialer.new))
        result }
    ensures ends { Ends (connect_text port peer.now dest.now line) dest.now
        (lent (S.source_view from.old) (K.sink_view to.old) (G.sink_view logs.old) (D.dialer_view dialer.old))
        (lent (S.source_view from.new) (K.sink_view to.new) (G.sink_view logs.new) (D.dialer_view dialer.new))
        result }
    ensures fronts { GivesFronts
        (lent (S.source_view from.old) (K.sink_view to.old) (G.sink_view logs.old) (D.dialer_view dialer.old))
        (lent (S.source_view from.new) (K.sink_view to.new) (G.sink_view logs.new) (D.dialer_view dialer.new))
        result }
    ensures keeps { RelayKeeps
        (lent (S.source_view from.old) (K.sink_view to.old) (G.sink_view logs.old) (D.dialer_view dialer.old))
        (lent (S.source_view from.new) (K.sink_view to.new) (G.sink_view logs.new) (D.dialer_view dialer.new)) }
    ensures caused { Caused result
        (lent (S.source_view from.old) (K.sink_view to.old) (G.sink_view logs.old) (D.dialer_view dialer.old))
        (lent (S.source_view from.new) (K.sink_view to.new) (G.sink_view logs.new) (D.dialer_view dialer.new)) }
    ensures waited { WaitsFor result
        (lent (S.source_view from.old) (K.sink_view to.old) (G.sink_view logs.old) (D.dialer_view dialer.old))
        (lent (S.source_view from.new) (K.sink_view to.new) (G.sink_view logs.new) (D.dialer_view dialer.new)) }
    ensures spent { RelayTakesFor result
        (lent (S.source_view from.old) (K.sink_view to.old) (G.sink_view logs.old) (D.dialer_view dialer.old))
        (lent (S.source_view from.new) (K.sink_view to.new) (G.sink_view logs.new) (D.dialer_view dialer.new)) }
{
    let text = connect_line(port, peer, dest, line);
    let script = PlugScript {
        line: text.as_slice(),
        dest,
    };
    let mut port = NoPort;
    let mut clock = NoClock;
    let mut dice = NoDice;
    relayed_over(
        rt, &script, &mut port, from, to, logs, dialer, &mut clock, &mut dice,
    )
}
