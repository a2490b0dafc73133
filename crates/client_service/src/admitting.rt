//! Sessions of `authsrv`: of a client whom the rules permit, and at the console.
ghost use Rattle.std.specs.Prelude.{◌≡◌, true, false};
ghost use Rattle.authsrv_gate.specs.Dialogue.{rows, session_row};
ghost use Rattle.client_service.specs.Conn.{AtConsole};
ghost use Rattle.client_service.specs.Decision.{decision_text};
ghost use Rattle.client_service.specs.Meeting.{logged_row, patient, timeout_of};
ghost use Rattle.gate_rules.specs.declared.service.Service.TheVariants.{Authsrv};
ghost use Rattle.gate_rules.specs.declared.verdict.Verdict.TheVariants.{Permit};
ghost use Rattle.session_acts.specs.Session.{Session};
ghost use Rattle.session_acts.specs.World.{devices_with};

use crate::decision::decision_line;
use crate::endings::note_ending;
use crate::waiting::{set_waits, timeout_of};
use auth_events::AuthPort;
use authsrv_gate::AuthsrvScript;
use fw_outside::{Clock, Dialer, Dice, Sink, Source};
use fw_types::{Ending, Peer};
use gate_rules::{Rules, Service, Verdict};
use session_acts::{Logged, session_over};

// Logs this line and then holds the session.
fn admit<P, S, K, G, D, C, R>(
    line: &[u8],
    port: &mut P,
    from: &mut S,
    to: &mut K,
    logs: &mut G,
    dialer: &mut D,
    clock: &mut C,
    dice: &mut R,
) -> Ending
where
    P: AuthPort,
    S: Source,
    K: Sink,
    G: Sink,
    D: Dialer,
    C: Clock,
    R: Dice,
    ensures { Session rows (logged_row line.now (session_row false))
        (devices_with (P.port port.old) (S.source_view from.old) (K.sink_view to.old) (G.sink_view logs.old)
        (D.dialer_view dialer.old) (C.clock_view clock.old) (R.dice_view dice.old))
        (devices_with (P.port port.new) (S.source_view from.new) (K.sink_view to.new) (G.sink_view logs.new)
        (D.dialer_view dialer.new) (C.clock_view clock.new) (R.dice_view dice.new))
        result }
{
    let session = AuthsrvScript { console: false };
    let script = Logged {
        line,
        session: &session,
    };
    session_over(&script, port, from, to, logs, dialer, clock, dice)
}

// Logs this line and then holds the session, over devices that wait as the rules have it.
fn admit_by<P, S, K, G, D, C, R>(
    rules: &Rules,
    line: &[u8],
    port: &mut P,
    from: &mut S,
    to: &mut K,
    logs: &mut G,
    dialer: &mut D,
    clock: &mut C,
    dice: &mut R,
) -> Ending
where
    P: AuthPort,
    S: Source,
    K: Sink,
    G: Sink,
    D: Dialer,
    C: Clock,
    R: Dice,
    ensures { Session rows (logged_row line.now (session_row false))
        (patient (timeout_of rules.now)
        (devices_with (P.port port.old) (S.source_view from.old) (K.sink_view to.old) (G.sink_view logs.old)
        (D.dialer_view dialer.old) (C.clock_view clock.old) (R.dice_view dice.old)))
        (devices_with (P.port port.new) (S.source_view from.new) (K.sink_view to.new) (G.sink_view logs.new)
        (D.dialer_view dialer.new) (C.clock_view clock.new) (R.dice_view dice.new))
        result }
{
    let seconds = timeout_of(rules);
    set_waits(seconds, from, dialer);
    admit(line, port, from, to, logs, dialer, clock, dice)
}

/// The session of a client whom this line permits, over devices that wait as the rules have it. The line of the permission is
/// logged first.
pub(crate) fn admit_client<P, S, K, G, D, C, R>(
    service: &Service,
    rules: &Rules,
    peer: &Peer,
    line: u32,
    port: &mut P,
    from: &mut S,
    to: &mut K,
    logs: &mut G,
    dialer: &mut D,
    clock: &mut C,
    dice: &mut R,
) -> Ending
where
    P: AuthPort,
    S: Source,
    K: Sink,
    G: Sink,
    D: Dialer,
    C: Clock,
    R: Dice,
    requires { service.now ≡ Authsrv }
    ensures { Session rows (logged_row (decision_text (Permit line) Authsrv peer.now) (session_row false))
        (patient (timeout_of rules.now)
        (devices_with (P.port port.old) (S.source_view from.old) (K.sink_view to.old) (G.sink_view logs.old)
        (D.dialer_view dialer.old) (C.clock_view clock.old) (R.dice_view dice.old)))
        (devices_with (P.port port.new) (S.source_view from.new) (K.sink_view to.new) (G.sink_view logs.new)
        (D.dialer_view dialer.new) (C.clock_view clock.new) (R.dice_view dice.new))
        result }
{
    let text = decision_line(Verdict::Permit { line }, service, peer);
    admit_by(
        rules,
        text.as_slice(),
        port,
        from,
        to,
        logs,
        dialer,
        clock,
        dice,
    )
}

// A session at the console.
fn at_console<P, S, K, G, D, C, R>(
    port: &mut P,
    from: &mut S,
    to: &mut K,
    logs: &mut G,
    dialer: &mut D,
    clock: &mut C,
    dice: &mut R,
) -> Ending
where
    P: AuthPort,
    S: Source,
    K: Sink,
    G: Sink,
    D: Dialer,
    C: Clock,
    R: Dice,
    ensures { Session rows (session_row true)
        (devices_with (P.port port.old) (S.source_view from.old) (K.sink_view to.old) (G.sink_view logs.old)
        (D.dialer_view dialer.old) (C.clock_view clock.old) (R.dice_view dice.old))
        (devices_with (P.port port.new) (S.source_view from.new) (K.sink_view to.new) (G.sink_view logs.new)
        (D.dialer_view dialer.new) (C.clock_view clock.new) (R.dice_view dice.new))
        result }
{
    let session = AuthsrvScript { console: true };
    session_over(&session, port, from, to, logs, dialer, clock, dice)
}

/// A session at the console of the server, and then its ending's line.
pub fn console<P, S, K, G, D, C, R>(
    service: &Service,
    peer: &Peer,
    port: &mut P,
    from: &mut S,
    to: &mut K,
    logs: &mut G,
    dialer: &mut D,
    clock: &mut C,
    dice: &mut R,
) -> Ending
where
    P: AuthPort,
    S: Source,
    K: Sink,
    G: Sink,
    D: Dialer,
    C: Clock,
    R: Dice,
    ensures { AtConsole service.now peer.now
        (devices_with (P.port port.old) (S.source_view from.old) (K.sink_view to.old) (G.sink_view logs.old)
        (D.dialer_view dialer.old) (C.clock_view clock.old) (R.dice_view dice.old))
        (devices_with (P.port port.new) (S.source_view from.new) (K.sink_view to.new) (G.sink_view logs.new)
        (D.dialer_view dialer.new) (C.clock_view clock.new) (R.dice_view dice.new))
        result }
{
    let ending = at_console(port, from, to, logs, dialer, clock, dice);
    note_ending(service, peer, ending, logs);
    ending
}
