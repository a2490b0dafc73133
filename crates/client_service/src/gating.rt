//! A client of the Telnet gateway whom the rules permit.
ghost use Rattle.std.specs.Prelude.{◌≡◌, IsSome};
ghost use Rattle.client_service.specs.Decision.{decision_text};
ghost use Rattle.client_service.specs.GateService.{HeldBehind, is_gate};
ghost use Rattle.client_service.specs.Meeting.{patient, timeout_of};
ghost use Rattle.gate_rules.specs.Verdict.{options_at};
ghost use Rattle.gate_rules.specs.declared.service.Service.TheVariants.{TnGw};
ghost use Rattle.gate_rules.specs.declared.verdict.Verdict.TheVariants.{Permit};
ghost use Rattle.tn_gate.specs.Dummies.{lent};
ghost use Rattle.tn_gate.specs.Gate.{gate_at};

use crate::decision::decision_line;
use crate::waiting::{set_waits, timeout_of};
use auth_events::AuthPort;
use fw_outside::{Clock, Dialer, Sink, Source};
use fw_types::{Ending, Peer};
use gate_rules::{Rules, Service, Verdict};
use session_acts::{Logged, relayed_over};
use std::thread::Threads;
use tn_gate::{NoDice, TnScript};

/// Whether the service is the Telnet gateway.
pub(crate) fn is_gate(service: &Service) -> bool
    ensures { result ≡ is_gate service.now }
{
    match service {
        Service::TnGw => true,
        _ => false,
    }
}

// Logs this line and then holds the session. It has no dice.
fn hold<H, P, S, K, G, D, C>(
    rt: &H,
    script: &TnScript,
    said: &[u8],
    port: &mut P,
    from: &mut S,
    to: &mut K,
    logs: &mut G,
    dialer: &mut D,
    clock: &mut C,
) -> Ending
where
    H: Threads + Sync,
    P: AuthPort,
    S: Source + Send,
    K: Sink + Send,
    G: Sink,
    D: Dialer,
    C: Clock,
    ensures { HeldBehind said.now script.now result
        (lent (P.port port.old) (S.source_view from.old) (K.sink_view to.old) (G.sink_view logs.old)
        (D.dialer_view dialer.old) (C.clock_view clock.old))
        (lent (P.port port.new) (S.source_view from.new) (K.sink_view to.new) (G.sink_view logs.new)
        (D.dialer_view dialer.new) (C.clock_view clock.new)) }
{
    let logged = Logged {
        line: said,
        session: script,
    };
    let mut dice = NoDice;
    relayed_over(rt, &logged, port, from, to, logs, dialer, clock, &mut dice)
}

// So it is, over devices that wait as the rules have it.
fn hold_by<H, P, S, K, G, D, C>(
    rt: &H,
    rules: &Rules,
    script: &TnScript,
    said: &[u8],
    port: &mut P,
    from: &mut S,
    to: &mut K,
    logs: &mut G,
    dialer: &mut D,
    clock: &mut C,
) -> Ending
where
    H: Threads + Sync,
    P: AuthPort,
    S: Source + Send,
    K: Sink + Send,
    G: Sink,
    D: Dialer,
    C: Clock,
    ensures { HeldBehind said.now script.now result
        (patient (timeout_of rules.now)
        (lent (P.port port.old) (S.source_view from.old) (K.sink_view to.old) (G.sink_view logs.old)
        (D.dialer_view dialer.old) (C.clock_view clock.old)))
        (lent (P.port port.new) (S.source_view from.new) (K.sink_view to.new) (G.sink_view logs.new)
        (D.dialer_view dialer.new) (C.clock_view clock.new)) }
{
    let seconds = timeout_of(rules);
    set_waits(seconds, from, dialer);
    hold(rt, script, said, port, from, to, logs, dialer, clock)
}

/// Lets a client in: its session is held with the options of the line that permits it, over devices that wait as the rules
/// have it. The line of the permission is logged first.
pub(crate) fn let_in<H, P, S, K, G, D, C>(
    rt: &H,
    service: &Service,
    rules: &Rules,
    peer: &Peer,
    line: u32,
    port: &mut P,
    from: &mut S,
    to: &mut K,
    logs: &mut G,
    dialer: &mut D,
    clock: &mut C,
) -> Ending
where
    H: Threads + Sync,
    P: AuthPort,
    S: Source + Send,
    K: Sink + Send,
    G: Sink,
    D: Dialer,
    C: Clock,
    requires service { service.now ≡ TnGw }
    requires options { IsSome (options_at rules.now line) }
    ensures { HeldBehind (decision_text (Permit line) TnGw peer.now) (gate_at rules.now line peer.now) result
        (patient (timeout_of rules.now)
        (lent (P.port port.old) (S.source_view from.old) (K.sink_view to.old) (G.sink_view logs.old)
        (D.dialer_view dialer.old) (C.clock_view clock.old)))
        (lent (P.port port.new) (S.source_view from.new) (K.sink_view to.new) (G.sink_view logs.new)
        (D.dialer_view dialer.new) (C.clock_view clock.new)) }
{
    let Some(options) = rules.options(line) else {
        unreachable!()
    };
    let script = TnScript {
        options,
        peer,
        line,
    };
    let text = decision_line(Verdict::Permit { line }, service, peer);
    hold_by(
        rt,
        rules,
        &script,
        text.as_slice(),
        port,
        from,
        to,
        logs,
        dialer,
        clock,
    )
}
