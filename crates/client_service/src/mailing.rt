//! A client of `smap` whom the rules permit.
ghost use Rattle.std.specs.Prelude.{◌≡◌, ◌≤◌};
ghost use Rattle.client_service.specs.MailService.{MailsOver, bytes_by, is_mail, mail_gate_of, rcpts_by};
ghost use Rattle.client_service.specs.Meeting.{logged_row, timeout_of};
ghost use Rattle.fw_outside.specs.DialerView.{dialer_waiting};
ghost use Rattle.fw_outside.specs.SourceView.{waiting};
ghost use Rattle.gate_rules.specs.declared.service.Service.TheVariants.{Smap};
ghost use Rattle.session_acts.specs.Session.{Session};
ghost use Rattle.smap_gate.specs.Dialogue.{smap_row, smap_rows};
ghost use Rattle.smap_gate.specs.Dummies.{lent};

use crate::decision::decision_line;
use crate::waiting::{set_waits, timeout_of};
use fw_outside::{Dialer, Sink, Source};
use fw_types::{Ending, Peer};
use gate_rules::{Rules, Service, Setting, Verdict};
use session_acts::{Logged, Nowhere, mail_session_over};
use smap_gate::{NoClock, NoDice, NoPort, SmapScript};
use spool_rack::MailStore;
use std::alloc::Global;

/// Whether the service is the mail gateway.
pub(crate) fn is_mail(service: &Service) -> bool
    ensures { result ≡ is_mail service.now }
{
    match service {
        Service::Smap => true,
        _ => false,
    }
}

// How many bytes the body of a message has at most.
fn bytes_by(set: Option<(u64, u32)>) -> u64
    ensures is { result ≡ bytes_by set }
    ensures fits { result ≤ 67108864 }
{
    match set {
        Some((value, _)) => value.min(67_108_864),
        None => 10_000_000,
    }
}

// How many recipients it has at most.
fn rcpts_by(set: Option<(u64, u32)>) -> u32
    ensures is { result ≡ rcpts_by set }
    ensures fits { result ≤ 1000 }
{
    match set {
        Some((value, _)) => value.min(1000) as u32,
        None => 100,
    }
}

// The session of this client, with the limits of the table.
fn script_for<'p>(alloc: Global, rules: &Rules, peer: &'p Peer) -> SmapScript<'p>
    ensures { result ≡ mail_gate_of rules.now peer.now }
{
    let most_bytes = bytes_by(rules.setting(Setting::MaxBytes));
    let most_rcpts = rcpts_by(rules.setting(Setting::MaxRecip));
    SmapScript::new(alloc, peer, most_bytes, most_rcpts)
}

// Logs this line and then holds the session. It has no port, no dialer, no clock and no dice.
fn mail<S, K, G, M>(
    script: &SmapScript,
    said: &[u8],
    from: &mut S,
    to: &mut K,
    logs: &mut G,
    store: &mut M,
) -> Ending
where
    S: Source,
    K: Sink,
    G: Sink,
    M: MailStore,
    ensures { Session (smap_rows script.now) (logged_row said.now smap_row)
        (lent (S.source_view from.old) (K.sink_view to.old) (G.sink_view logs.old) (M.store_view store.old))
        (lent (S.source_view from.new) (K.sink_view to.new) (G.sink_view logs.new) (M.store_view store.new))
        result }
{
    let logged = Logged {
        line: said,
        session: script,
    };
    let mut port = NoPort;
    let mut dialer = Nowhere::new();
    let mut clock = NoClock;
    let mut dice = NoDice;
    mail_session_over(
        &logged,
        &mut port,
        from,
        to,
        logs,
        &mut dialer,
        &mut clock,
        &mut dice,
        store,
    )
}

/// Takes the mail of a client: its session is held with the limits of the table, over a source that waits as the table has
/// it, and the dialer is told so, too. The line of the permission is logged first.
pub(crate) fn take_mail<S, K, G, D, M>(
    alloc: Global,
    service: &Service,
    rules: &Rules,
    peer: &Peer,
    line: u32,
    from: &mut S,
    to: &mut K,
    logs: &mut G,
    dialer: &mut D,
    store: &mut M,
) -> Ending
where
    S: Source,
    K: Sink,
    G: Sink,
    D: Dialer,
    M: MailStore,
    requires service { service.now ≡ Smap }
    ensures mails { MailsOver line rules.now peer.now result
        (lent (waiting (S.source_view from.old) (timeout_of rules.now)) (K.sink_view to.old) (G.sink_view logs.old)
        (M.store_view store.old))
        (lent (S.source_view from.new) (K.sink_view to.new) (G.sink_view logs.new) (M.store_view store.new)) }
    ensures dialer { D.dialer_view dialer.new ≡ dialer_waiting (D.dialer_view dialer.old) (timeout_of rules.now) }
{
    let text = decision_line(Verdict::Permit { line }, service, peer);
    let script = script_for(alloc, rules, peer);
    let seconds = timeout_of(rules);
    set_waits(seconds, from, dialer);
    mail(&script, text.as_slice(), from, to, logs, store)
}
