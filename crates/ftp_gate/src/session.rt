//! A session of the FTP gateway.
ghost use Rattle.std.specs.Prelude.{◌≡◌, is_some, true};
ghost use Rattle.gate_rules.specs.Verdict.{options_at};
ghost use Rattle.session_acts.specs.Causes.{Caused, SessionKeeps, TakesFor, WaitsFor};
ghost use Rattle.session_acts.specs.Session.{Session};
ghost use Rattle.ftp_gate.specs.Dialogue.{ftp_row, ftp_rows};
ghost use Rattle.ftp_gate.specs.Dummies.{lent};
ghost use Rattle.ftp_gate.specs.Gate.{gate_at};

use crate::dummies::NoDice;
use crate::script::FtpScript;
use auth_events::AuthPort;
use fw_outside::{Clock, Dialer, Sink, Source};
use fw_types::{Ending, Peer};
use gate_rules::Rules;
use session_acts::session_over;
use std::thread::Threads;

/// A session of a client whom the permit line with this number of the rules of `ftp-gw` permits. Its commands are heard; a
/// server that the table permits is linked to it, is given the commands that aren't blocked, and its replies are passed; data
/// are copied between two data links of the session's own. At most 2^40 bytes are taken of the client, of the server over one
/// link, and over one data link.
///
/// A session that is open at the port is asked to close. The answer is `Done` at the client's end, after QUIT, or at the
/// server's end, unless the close that is owed gets no answer; else why the session stopped. A device that failed or was idle
/// has counted it. No thread is started.
pub fn ftp_session<H, P, S, K, G, D, C>(
    _rt: &H,
    rules: &Rules,
    line: u32,
    peer: &Peer,
    port: &mut P,
    from: &mut S,
    to: &mut K,
    logs: &mut G,
    dialer: &mut D,
    clock: &mut C,
) -> Ending
where
    H: Threads + Sync,
    P: AuthPort,
    S: Source + Send,
    K: Sink + Send,
    G: Sink,
    D: Dialer,
    C: Clock,
    requires { is_some (options_at rules.now line) ≡ true }
    ensures session { Session (ftp_rows (gate_at rules.now line peer.now)) ftp_row
        (lent (P.port port.old) (S.source_view from.old) (K.sink_view to.old) (G.sink_view logs.old)
        (D.dialer_view dialer.old) (C.clock_view clock.old))
        (lent (P.port port.new) (S.source_view from.new) (K.sink_view to.new) (G.sink_view logs.new)
        (D.dialer_view dialer.new) (C.clock_view clock.new))
        result }
    ensures keeps { SessionKeeps
        (lent (P.port port.old) (S.source_view from.old) (K.sink_view to.old) (G.sink_view logs.old)
        (D.dialer_view dialer.old) (C.clock_view clock.old))
        (lent (P.port port.new) (S.source_view from.new) (K.sink_view to.new) (G.sink_view logs.new)
        (D.dialer_view dialer.new) (C.clock_view clock.new)) }
    ensures caused { Caused result
        (lent (P.port port.old) (S.source_view from.old) (K.sink_view to.old) (G.sink_view logs.old)
        (D.dialer_view dialer.old) (C.clock_view clock.old))
        (lent (P.port port.new) (S.source_view from.new) (K.sink_view to.new) (G.sink_view logs.new)
        (D.dialer_view dialer.new) (C.clock_view clock.new)) }
    ensures waited { WaitsFor result
        (lent (P.port port.old) (S.source_view from.old) (K.sink_view to.old) (G.sink_view logs.old)
        (D.dialer_view dialer.old) (C.clock_view clock.old))
        (lent (P.port port.new) (S.source_view from.new) (K.sink_view to.new) (G.sink_view logs.new)
        (D.dialer_view dialer.new) (C.clock_view clock.new)) }
    ensures spent { TakesFor result
        (lent (P.port port.old) (S.source_view from.old) (K.sink_view to.old) (G.sink_view logs.old)
        (D.dialer_view dialer.old) (C.clock_view clock.old))
        (lent (P.port port.new) (S.source_view from.new) (K.sink_view to.new) (G.sink_view logs.new)
        (D.dialer_view dialer.new) (C.clock_view clock.new)) }
{
    let Some(options) = rules.options(line) else {
        unreachable!();
    };
    let script = FtpScript {
        options,
        peer,
        line,
    };
    let mut dice = NoDice;
    session_over(&script, port, from, to, logs, dialer, clock, &mut dice)
}
