//! A client of the FTP gateway whom the rules permit.
ghost use Rattle.std.specs.Prelude.{◌≡◌, IsSome};
ghost use Rattle.client_service.specs.Decision.{decision_text};
ghost use Rattle.client_service.specs.FtpService.{ServedBehind, is_ftp};
ghost use Rattle.client_service.specs.Meeting.{patient, timeout_of};
ghost use Rattle.gate_rules.specs.Verdict.{options_at};
ghost use Rattle.gate_rules.specs.declared.service.Service.TheVariants.{FtpGw};
ghost use Rattle.gate_rules.specs.declared.verdict.Verdict.TheVariants.{Permit};
ghost use Rattle.ftp_gate.specs.Dummies.{lent};
ghost use Rattle.ftp_gate.specs.Gate.{gate_at};

use crate::decision::decision_line;
use crate::waiting::{set_waits, timeout_of};
use auth_events::AuthPort;
use ftp_gate::{FtpScript, NoDice};
use fw_outside::{Clock, Dialer, Sink, Source};
use fw_types::{Ending, Peer};
use gate_rules::{Rules, Service, Verdict};
use session_acts::{Logged, session_over};

/// Whether the service is the FTP gateway.
pub(crate) fn is_ftp(service: &Service) -> bool
    ensures { result ≡ is_ftp service.now }
{
    match service {
        Service::FtpGw => true,
        _ => false,
    }
}

// Logs this line and then holds the session. It has no dice.
fn hold<P, S, K, G, D, C>(
    script: &FtpScript,
    said: &[u8],
    port: &mut P,
    from: &mut S,
    to: &mut K,
    logs: &mut G,
    dialer: &mut D,
    clock: &mut C,
) -> Ending
where
    P: AuthPort,
    S: Source,
    K: Sink,
    G: Sink,
    D: Dialer,
    C: Clock,
    ensures { ServedBehind said.now script.now result
        (lent (P.port port.old) (S.source_view from.old) (K.sink_view to.old) (G.sink_view logs.old)
        (D.dialer_view dialer.old) (C.clock_view clock.old))
        (lent (P.port port.new) (S.source_view from.new) (K.sink_view to.new) (G.sink_view logs.new)
        (D.dialer_view dialer.new) (C.clock_view clock.new)) }
{
    let logged = Logged {
        line: said,
        session: script,
    };
    let mut dice = NoDice;
    session_over(&logged, port, from, to, logs, dialer, clock, &mut dice)
}

// So it is, over devices that wait as the rules have it.
fn hold_by<P, S, K, G, D, C>(
    rules: &Rules,
    script: &FtpScript,
    said: &[u8],
    port: &mut P,
    from: &mut S,
    to: &mut K,
    logs: &mut G,
    dialer: &mut D,
    clock: &mut C,
) -> Ending
where
    P: AuthPort,
    S: Source,
    K: Sink,
    G: Sink,
    D: Dialer,
    C: Clock,
    ensures { ServedBehind said.now script.now result
        (patient (timeout_of rules.now)
        (lent (P.port port.old) (S.source_view from.old) (K.sink_view to.old) (G.sink_view logs.old)
        (D.dialer_view dialer.old) (C.clock_view clock.old)))
        (lent (P.port port.new) (S.source_view from.new) (K.sink_view to.new) (G.sink_view logs.new)
        (D.dialer_view dialer.new) (C.clock_view clock.new)) }
{
    let seconds = timeout_of(rules);
    set_waits(seconds, from, dialer);
    hold(script, said, port, from, to, logs, dialer, clock)
}

/// Serves a client: its session is held with the options of the line that permits it, over devices that wait as the rules
/// have it. The line of the permission is logged first.
pub(crate) fn serve_ftp<P, S, K, G, D, C>(
    service: &Service,
    rules: &Rules,
    peer: &Peer,
    line: u32,
    port: &mut P,
    from: &mut S,
    to: &mut K,
    logs: &mut G,
    dialer: &mut D,
    clock: &mut C,
) -> Ending
where
    P: AuthPort,
    S: Source,
    K: Sink,
    G: Sink,
    D: Dialer,
    C: Clock,
    requires service { service.now ≡ FtpGw }
    requires options { IsSome (options_at rules.now line) }
    ensures { ServedBehind (decision_text (Permit line) FtpGw peer.now) (gate_at rules.now line peer.now) result
        (patient (timeout_of rules.now)
        (lent (P.port port.old) (S.source_view from.old) (K.sink_view to.old) (G.sink_view logs.old)
        (D.dialer_view dialer.old) (C.clock_view clock.old)))
        (lent (P.port port.new) (S.source_view from.new) (K.sink_view to.new) (G.sink_view logs.new)
        (D.dialer_view dialer.new) (C.clock_view clock.new)) }
{
    let Some(options) = rules.options(line) else {
        unreachable!()
    };
    let script = FtpScript {
        options,
        peer,
        line,
    };
    let text = decision_line(Verdict::Permit { line }, service, peer);
    hold_by(
        rules,
        &script,
        text.as_slice(),
        port,
        from,
        to,
        logs,
        dialer,
        clock,
    )
}
