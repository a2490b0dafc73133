//! A client of the plug whom the rules permit.
ghost use Rattle.std.specs.Prelude.{◌≡◌, IsSome};
ghost use Rattle.std.specs.Option.{option_copied};
ghost use Rattle.client_service.specs.Meeting.{logged_row, patient, timeout_of};
ghost use Rattle.client_service.specs.PlugService.{LinksOver, plug_in, target_of};
ghost use Rattle.gate_rules.specs.declared.service.Service.TheVariants.{PlugGw};
ghost use Rattle.plug_gate.specs.Dialogue.{connect_text, plug_row};
ghost use Rattle.plug_gate.specs.Dummies.{lent};
ghost use Rattle.session_acts.specs.Denying.{no_rows};
ghost use Rattle.session_acts.specs.Relayed.{relayed};
ghost use Rattle.session_acts.specs.Session.{RelaySession};

use crate::decision::decision_line;
use crate::waiting::{set_waits, timeout_of};
use fw_outside::{Dialer, Sink, Source};
use fw_types::{Dest, Ending, Peer};
use gate_rules::{Rules, Service, Verdict};
use plug_gate::{NoClock, NoDice, NoPort, PlugScript, connect_line};
use session_acts::{Logged, relayed_over};
use std::thread::Threads;

/// The port of the plug, where the service is that.
pub(crate) fn plug_in(service: &Service) -> Option<u16>
    ensures { result ≡ plug_in service.now }
{
    match service {
        Service::PlugGw(port) => Some(*port),
        _ => None,
    }
}

// The destination of the permit line with this number.
fn target(rules: &Rules, line: u32) -> Option<&Dest>
    ensures { option_copied result ≡ target_of rules.entry.now line }
{
    match rules.options(line) {
        Some(options) => options.plug_to.as_ref(),
        None => None,
    }
}

// Logs this line and then holds the session.
fn plug<H, S, K, G, D>(
    rt: &H,
    said: &[u8],
    port: u16,
    dest: &Dest,
    peer: &Peer,
    line: u32,
    from: &mut S,
    to: &mut K,
    logs: &mut G,
    dialer: &mut D,
) -> Ending
where
    H: Threads + Sync,
    S: Source + Send,
    K: Sink + Send,
    G: Sink,
    D: Dialer,
    ensures { RelaySession (relayed no_rows)
        (logged_row said.now (plug_row (connect_text port peer.now dest.now line) dest.now))
        (lent (S.source_view from.old) (K.sink_view to.old) (G.sink_view logs.old) (D.dialer_view dialer.old))
        (lent (S.source_view from.new) (K.sink_view to.new) (G.sink_view logs.new) (D.dialer_view dialer.new))
        result }
{
    let text = connect_line(port, peer, dest, line);
    let session = PlugScript {
        line: text.as_slice(),
        dest,
    };
    let script = Logged {
        line: said,
        session: &session,
    };
    let mut port = NoPort;
    let mut clock = NoClock;
    let mut dice = NoDice;
    relayed_over(
        rt, &script, &mut port, from, to, logs, dialer, &mut clock, &mut dice,
    )
}

// So it is, over devices that wait as the rules have it.
fn plug_by<H, S, K, G, D>(
    rt: &H,
    rules: &Rules,
    said: &[u8],
    port: u16,
    dest: &Dest,
    peer: &Peer,
    line: u32,
    from: &mut S,
    to: &mut K,
    logs: &mut G,
    dialer: &mut D,
) -> Ending
where
    H: Threads + Sync,
    S: Source + Send,
    K: Sink + Send,
    G: Sink,
    D: Dialer,
    ensures { RelaySession (relayed no_rows)
        (logged_row said.now (plug_row (connect_text port peer.now dest.now line) dest.now))
        (patient (timeout_of rules.now)
        (lent (S.source_view from.old) (K.sink_view to.old) (G.sink_view logs.old) (D.dialer_view dialer.old)))
        (lent (S.source_view from.new) (K.sink_view to.new) (G.sink_view logs.new) (D.dialer_view dialer.new))
        result }
{
    let seconds = timeout_of(rules);
    set_waits(seconds, from, dialer);
    plug(rt, said, port, dest, peer, line, from, to, logs, dialer)
}

/// Links a client to the destination of the line that permits it, over devices that wait as the rules have it. The line of
/// the permission is logged first.
pub(crate) fn link<H, S, K, G, D>(
    rt: &H,
    service: &Service,
    rules: &Rules,
    port: u16,
    peer: &Peer,
    line: u32,
    from: &mut S,
    to: &mut K,
    logs: &mut G,
    dialer: &mut D,
) -> Ending
where
    H: Threads + Sync,
    S: Source + Send,
    K: Sink + Send,
    G: Sink,
    D: Dialer,
    requires service { service.now ≡ PlugGw port }
    requires target { IsSome (target_of rules.now line) }
    ensures { LinksOver port line rules.now peer.now result
        (lent (S.source_view from.old) (K.sink_view to.old) (G.sink_view logs.old) (D.dialer_view dialer.old))
        (lent (S.source_view from.new) (K.sink_view to.new) (G.sink_view logs.new) (D.dialer_view dialer.new)) }
{
    let Some(dest) = target(rules, line) else {
        unreachable!()
    };
    let text = decision_line(Verdict::Permit { line }, service, peer);
    plug_by(
        rt,
        rules,
        text.as_slice(),
        port,
        dest,
        peer,
        line,
        from,
        to,
        logs,
        dialer,
    )
}
