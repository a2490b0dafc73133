//! A session of the Telnet gateway.
ghost use Rattle.std.specs.Prelude.{◌≡◌, is_some, true};
ghost use Rattle.gate_rules.specs.Verdict.{options_at};
ghost use Rattle.session_acts.specs.Causes.{Caused, RelayKeeps, RelayTakesFor, WaitsFor};
ghost use Rattle.session_acts.specs.Relayed.{relayed, then_relay};
ghost use Rattle.session_acts.specs.Session.{RelaySession};
ghost use Rattle.tn_gate.specs.Dialogue.{tn_row, tn_rows};
ghost use Rattle.tn_gate.specs.Dummies.{lent};
ghost use Rattle.tn_gate.specs.Gate.{gate_at};

use crate::dummies::NoDice;
use crate::script::TnScript;
use auth_events::AuthPort;
use fw_outside::{Clock, Dialer, Sink, Source};
use fw_types::{Ending, Peer};
use gate_rules::Rules;
use session_acts::relayed_over;
use std::thread::Threads;

/// A session of a client whom the permit line with this number of the rules of `tn-gw` permits. Who the client is, is asked
/// where that line wants to know it; then commands are heard, up to the first destination that comes up; then what both sides
/// say is relayed, both ways at once, until both are done, and the link is hung up. At most 2^40 bytes are taken of each.
///
/// A session that is open at the port is asked to close. The answer is `Done` at the client's end or `quit`, or where both
/// ways of the relay were, unless the close that is owed gets no answer; else why the session stopped. A device that failed
/// or was idle has counted it.
pub fn tn_session<H, P, S, K, G, D, C>(
    rt: &H,
    rules: &Rules,
    line: u32,
    peer: &Peer,
    port: &mut P,
    from: &mut S,
    to: &mut K,
    logs: &mut G,
    dialer: &mut D,
    clock: &mut C,
) -> Ending
where
    H: Threads + Sync,
    P: AuthPort,
    S: Source + Send,
    K: Sink + Send,
    G: Sink,
    D: Dialer,
    C: Clock,
    requires { is_some (options_at rules.now line) ≡ true }
    ensures session { RelaySession (relayed (tn_rows (gate_at rules.now line peer.now)))
        (then_relay (tn_row (gate_at rules.now line peer.now)))
        (lent (P.port port.old) (S.source_view from.old) (K.sink_view to.old) (G.sink_view logs.old)
        (D.dialer_view dialer.old) (C.clock_view clock.old))
        (lent (P.port port.new) (S.source_view from.new) (K.sink_view to.new) (G.sink_view logs.new)
        (D.dialer_view dialer.new) (C.clock_view clock.new))
        result }
    ensures keeps { RelayKeeps
        (lent (P.port port.old) (S.source_view from.old) (K.sink_view to.old) (G.sink_view logs.old)
        (D.dialer_view dialer.old) (C.clock_view clock.old))
        (lent (P.port port.new) (S.source_view from.new) (K.sink_view to.new) (G.sink_view logs.new)
        (D.dialer_view dialer.new) (C.clock_view clock.new)) }
    ensures caused { Caused result
        (lent (P.port port.old) (S.source_view from.old) (K.sink_view to.old) (G.sink_view logs.old)
        (D.dialer_view dialer.old) (C.clock_view clock.old))
        (lent (P.port port.new) (S.source_view from.new) (K.sink_view to.new) (G.sink_view logs.new)
        (D.dialer_view dialer.new) (C.clock_view clock.new)) }
    ensures waited { WaitsFor result
        (lent (P.port port.old) (S.source_view from.old) (K.sink_view to.old) (G.sink_view logs.old)
        (D.dialer_view dialer.old) (C.clock_view clock.old))
        (lent (P.port port.new) (S.source_view from.new) (K.sink_view to.new) (G.sink_view logs.new)
        (D.dialer_view dialer.new) (C.clock_view clock.new)) }
    ensures spent { RelayTakesFor result
        (lent (P.port port.old) (S.source_view from.old) (K.sink_view to.old) (G.sink_view logs.old)
        (D.dialer_view dialer.old) (C.clock_view clock.old))
        (lent (P.port port.new) (S.source_view from.new) (K.sink_view to.new) (G.sink_view logs.new)
        (D.dialer_view dialer.new) (C.clock_view clock.new)) }
{
    let Some(options) = rules.options(line) else {
        unreachable!();
    };
    let script = TnScript {
        options,
        peer,
        line,
    };
    let mut dice = NoDice;
    relayed_over(rt, &script, port, from, to, logs, dialer, clock, &mut dice)
}
