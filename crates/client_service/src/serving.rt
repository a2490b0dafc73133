//! One client of a service: the verdict, the session, and how it ended.
ghost use Rattle.std.specs.Prelude.{◌≡◌};
ghost use Rattle.client_service.specs.Conn.{Causes, Conn, Dials, FrontsBy, IsRefused, IsServed, Mails, PermitsBy, TakesBy, Treats, Unasked, Unstored, Unthrown, Untouched, WaitsAs};
ghost use Rattle.client_service.specs.Kind.{kind_of, may_relay};
ghost use Rattle.client_service.specs.Meeting.{lent_by};
ghost use Rattle.client_service.specs.Options.{HasOptions, OptionsFor};
ghost use Rattle.gate_rules.specs.Verdict.{verdict_of};
ghost use Rattle.gate_rules.specs.declared.verdict.Verdict.TheVariants.{Permit};
ghost use Rattle.session_acts.specs.Causes.{KeepsAs};
ghost use Rattle.session_acts.specs.World.{mail_devices_with};

use crate::admitting::admit_client;
use crate::deciding::verdict_of;
use crate::denying::deny;
use crate::endings::note_ending;
use crate::ftp_serving::{is_ftp, serve_ftp};
use crate::gating::{is_gate, let_in};
use crate::linking::{link, plug_in};
use crate::mailing::{is_mail, take_mail};
use auth_events::AuthPort;
use fw_outside::{Clock, Dialer, Dice, Sink, Source};
use fw_types::{Ending, Peer};
use gate_rules::{Rules, Service, Verdict};
use spool_rack::MailStore;
use std::alloc::Global;
use std::thread::Threads;

// A client whom this line permits, by its service. Of one of the plug or of the mail gateway the port, the clock and the dice
// aren't touched, and of one of the Telnet or the FTP gateway not the dice; of any but one of the mail gateway not the mail
// store.
fn permit<H, P, S, K, G, D, M, C, R>(
    rt: &H,
    alloc: Global,
    service: &Service,
    rules: &Rules,
    peer: &Peer,
    line: u32,
    port: &mut P,
    from: &mut S,
    to: &mut K,
    logs: &mut G,
    dialer: &mut D,
    store: &mut M,
    clock: &mut C,
    dice: &mut R,
) -> Ending
where
    H: Threads + Sync,
    P: AuthPort,
    S: Source + Send,
    K: Sink + Send,
    G: Sink,
    D: Dialer,
    M: MailStore,
    C: Clock,
    R: Dice,
    requires options { HasOptions service.now rules.now line }
    ensures permits { PermitsBy service.now line rules.now peer.now result
        (mail_devices_with (P.port port.old) (S.source_view from.old) (K.sink_view to.old) (G.sink_view logs.old)
        (D.dialer_view dialer.old) (C.clock_view clock.old) (R.dice_view dice.old) (M.store_view store.old))
        (mail_devices_with (P.port port.new) (S.source_view from.new) (K.sink_view to.new) (G.sink_view logs.new)
        (D.dialer_view dialer.new) (C.clock_view clock.new) (R.dice_view dice.new) (M.store_view store.new)) }
    ensures untouched { Untouched service.now (Permit line) port.old port.new }
    ensures unclocked { Untouched service.now (Permit line) clock.old clock.new }
    ensures unthrown { Unthrown service.now (Permit line) dice.old dice.new }
    ensures unstored { Unstored service.now (Permit line) store.old store.new }
{
    match plug_in(service) {
        Some(at) => link(rt, service, rules, at, peer, line, from, to, logs, dialer),
        None => {
            if is_gate(service) {
                let_in(
                    rt, service, rules, peer, line, port, from, to, logs, dialer, clock,
                )
            } else if is_ftp(service) {
                serve_ftp(
                    service, rules, peer, line, port, from, to, logs, dialer, clock,
                )
            } else if is_mail(service) {
                take_mail(
                    alloc, service, rules, peer, line, from, to, logs, dialer, store,
                )
            } else {
                admit_client(
                    service, rules, peer, line, port, from, to, logs, dialer, clock, dice,
                )
            }
        }
    }
}

// A client is turned away, or its session held over devices that wait as the rules have it.
fn treat<H, P, S, K, G, D, M, C, R>(
    rt: &H,
    alloc: Global,
    verdict: Verdict,
    service: &Service,
    rules: &Rules,
    peer: &Peer,
    port: &mut P,
    from: &mut S,
    to: &mut K,
    logs: &mut G,
    dialer: &mut D,
    store: &mut M,
    clock: &mut C,
    dice: &mut R,
) -> Ending
where
    H: Threads + Sync,
    P: AuthPort,
    S: Source + Send,
    K: Sink + Send,
    G: Sink,
    D: Dialer,
    M: MailStore,
    C: Clock,
    R: Dice,
    requires options { OptionsFor verdict service.now rules.now }
    ensures treats { Treats verdict service.now rules.now peer.now result
        (mail_devices_with (P.port port.old) (S.source_view from.old) (K.sink_view to.old) (G.sink_view logs.old)
        (D.dialer_view dialer.old) (C.clock_view clock.old) (R.dice_view dice.old) (M.store_view store.old))
        (mail_devices_with (P.port port.new) (S.source_view from.new) (K.sink_view to.new) (G.sink_view logs.new)
        (D.dialer_view dialer.new) (C.clock_view clock.new) (R.dice_view dice.new) (M.store_view store.new)) }
    ensures untouched { Untouched service.now verdict port.old port.new }
    ensures unclocked { Untouched service.now verdict clock.old clock.new }
    ensures unthrown { Unthrown service.now verdict dice.old dice.new }
    ensures unstored { Unstored service.now verdict store.old store.new }
{
    match verdict {
        Verdict::Deny { line } => deny(service, line, peer, to, logs),
        Verdict::Permit { line } => permit(
            rt, alloc, service, rules, peer, line, port, from, to, logs, dialer, store, clock, dice,
        ),
    }
}

/// One client of a service, which is `authsrv`, `tn-gw`, `ftp-gw`, `smap` or the plug, by the rules of that service. For whom
/// the rules permit, the client's source and the dialer are told how long to wait, the verdict is logged, and the session held:
/// that of `authsrv`; that of `tn-gw` or `ftp-gw` with the options of the line that permits; that of `smap` with the limits of
/// the rules, over the mail store; or that of the plug with the destination of that line. For whom they deny, the verdict is
/// logged, and it is tried to tell the client, but one of the plug is told nothing. Then the ending is logged.
///
/// A message of `smap` is begun in memory of `alloc`. A caller that serves no mail may hand in a store without slots.
///
/// The answer is `Denied` where the rules deny the peer and that was logged, whether the client could be told or not;
/// it is `LogFault` where the log failed within the verdict's line, and then nothing else was done. Any other answer is
/// the session's. The line of an ending may fail, and that changes no answer.
pub fn conn<H, P, S, K, G, D, M, C, R>(
    rt: &H,
    alloc: Global,
    service: &Service,
    rules: &Rules,
    peer: &Peer,
    port: &mut P,
    from: &mut S,
    to: &mut K,
    logs: &mut G,
    dialer: &mut D,
    store: &mut M,
    clock: &mut C,
    dice: &mut R,
) -> Ending
where
    H: Threads + Sync,
    P: AuthPort,
    S: Source + Send,
    K: Sink + Send,
    G: Sink,
    D: Dialer,
    M: MailStore,
    C: Clock,
    R: Dice,
    requires service { IsServed service.now rules.now }
    // The acts that were done, and the ending.
    ensures conn { Conn service.now rules.now peer.now
        (mail_devices_with (P.port port.old) (S.source_view from.old) (K.sink_view to.old) (G.sink_view logs.old)
        (D.dialer_view dialer.old) (C.clock_view clock.old) (R.dice_view dice.old) (M.store_view store.old))
        (mail_devices_with (P.port port.new) (S.source_view from.new) (K.sink_view to.new) (G.sink_view logs.new)
        (D.dialer_view dialer.new) (C.clock_view clock.new) (R.dice_view dice.new) (M.store_view store.new))
        result }
    // Each ending but done and want of memory has its cause: the verdict, or a count of a device. A client of `authsrv` or of
    // `smap` meets no server; one of the plug wants no memory, and meets no port; and one of `tn-gw` or `ftp-gw` doesn't end since
    // a destination couldn't be reached.
    ensures caused { Causes (kind_of service.now (verdict_of rules.now peer.now)) (verdict_of rules.now peer.now) result
        (mail_devices_with (P.port port.old) (S.source_view from.old) (K.sink_view to.old) (G.sink_view logs.old)
        (D.dialer_view dialer.old) (C.clock_view clock.old) (R.dice_view dice.old) (M.store_view store.old))
        (mail_devices_with (P.port port.new) (S.source_view from.new) (K.sink_view to.new) (G.sink_view logs.new)
        (D.dialer_view dialer.new) (C.clock_view clock.new) (R.dice_view dice.new) (M.store_view store.new)) }
    // At most 2^40 bytes are taken of the client. A session that reaches no server is `Spent` exactly where it was so many. One of
    // `ftp-gw` is `Spent` then; one that may be linked is, or has failed or been idle before. For what else these two are `Spent`,
    // `caused` says.
    ensures spent { TakesBy (kind_of service.now (verdict_of rules.now peer.now)) result
        (mail_devices_with (P.port port.old) (S.source_view from.old) (K.sink_view to.old) (G.sink_view logs.old)
        (D.dialer_view dialer.old) (C.clock_view clock.old) (R.dice_view dice.old) (M.store_view store.old))
        (mail_devices_with (P.port port.new) (S.source_view from.new) (K.sink_view to.new) (G.sink_view logs.new)
        (D.dialer_view dialer.new) (C.clock_view clock.new) (R.dice_view dice.new) (M.store_view store.new)) }
    // Where a client whom the rules permit was idle, its source waited as long as the rules have it; or the link did.
    ensures waited { WaitsAs (kind_of service.now (verdict_of rules.now peer.now)) (verdict_of rules.now peer.now) rules.now result
        (mail_devices_with (P.port port.old) (S.source_view from.old) (K.sink_view to.old) (G.sink_view logs.old)
        (D.dialer_view dialer.old) (C.clock_view clock.old) (R.dice_view dice.old) (M.store_view store.old))
        (mail_devices_with (P.port port.new) (S.source_view from.new) (K.sink_view to.new) (G.sink_view logs.new)
        (D.dialer_view dialer.new) (C.clock_view clock.new) (R.dice_view dice.new) (M.store_view store.new)) }
    // A peer whom the rules deny is denied, unless the log failed.
    ensures refused { IsRefused (verdict_of rules.now peer.now) result }
    // For a client of the plug whom the rules permit the dialer is asked for the destination of the line, exactly where the log
    // has the connect line whole. For one of `tn-gw` or `ftp-gw` whom they permit `fronts` says it. For any other it is asked for
    // nothing, and told how long to wait where the rules permit.
    ensures dialed { Dials service.now (verdict_of rules.now peer.now) rules.now peer.now result
        (mail_devices_with (P.port port.old) (S.source_view from.old) (K.sink_view to.old) (G.sink_view logs.old)
        (D.dialer_view dialer.old) (C.clock_view clock.old) (R.dice_view dice.old) (M.store_view store.old))
        (mail_devices_with (P.port port.new) (S.source_view from.new) (K.sink_view to.new) (G.sink_view logs.new)
        (D.dialer_view dialer.new) (C.clock_view clock.new) (R.dice_view dice.new) (M.store_view store.new)) }
    // For whom the rules permit of `tn-gw` or the plug: what was given to the server is a front of what was taken of the client,
    // and what was given to the client one of what was taken of the server: all of it, unless a source or a sink failed. For
    // `tn-gw` this is behind what the session heard and told before, and of the same session it is said what the dialer was
    // asked for, and when, and which lines the log was given. For `ftp-gw` it is said of the session what the dialer was asked
    // for, and when, how many links came up, what the server was given, and that each denial was logged before it was told.
    ensures fronts { FrontsBy service.now (verdict_of rules.now peer.now) rules.now peer.now result
        (mail_devices_with (P.port port.old) (S.source_view from.old) (K.sink_view to.old) (G.sink_view logs.old)
        (D.dialer_view dialer.old) (C.clock_view clock.old) (R.dice_view dice.old) (M.store_view store.old))
        (mail_devices_with (P.port port.new) (S.source_view from.new) (K.sink_view to.new) (G.sink_view logs.new)
        (D.dialer_view dialer.new) (C.clock_view clock.new) (R.dice_view dice.new) (M.store_view store.new)) }
    // Where the line that permits a client of `tn-gw` asks for no login, what port and clock tell is as it was, and the ending
    // is neither the port's nor want of memory. So it is for a client of `ftp-gw` whom the rules permit, where none of the lines
    // that were taken of it is AUTHORIZE with a name.
    ensures unasked { Unasked (kind_of service.now (verdict_of rules.now peer.now)) (verdict_of rules.now peer.now) rules.now result
        (mail_devices_with (P.port port.old) (S.source_view from.old) (K.sink_view to.old) (G.sink_view logs.old)
        (D.dialer_view dialer.old) (C.clock_view clock.old) (R.dice_view dice.old) (M.store_view store.old))
        (mail_devices_with (P.port port.new) (S.source_view from.new) (K.sink_view to.new) (G.sink_view logs.new)
        (D.dialer_view dialer.new) (C.clock_view clock.new) (R.dice_view dice.new) (M.store_view store.new)) }
    // What the port's answers stand on stays, and so does whose history it belongs to.
    ensures origin { (P.port port.new).origin ≡ (P.port port.old).origin }
    ensures home { (P.port port.new).home ≡ (P.port port.old).home }
    // Where the rules deny the peer, and for each client of the plug or of `smap`, the port isn't touched at all, nor the clock,
    // nor the dice; these aren't for any client of `tn-gw` or `ftp-gw`.
    ensures untouched { Untouched service.now (verdict_of rules.now peer.now) port.old port.new }
    ensures unclocked { Untouched service.now (verdict_of rules.now peer.now) clock.old clock.new }
    ensures unthrown { Unthrown service.now (verdict_of rules.now peer.now) dice.old dice.new }
    // For each client but one of `smap` whom the rules permit, the mail store isn't touched. For that one it was given the
    // messages that its session kept, in order, and no other; and of the same session it is said whose these are, what the
    // client was told and which lines the log was given.
    ensures unstored { Unstored service.now (verdict_of rules.now peer.now) store.old store.new }
    ensures kept { Mails service.now (verdict_of rules.now peer.now) rules.now peer.now result
        (mail_devices_with (P.port port.old) (S.source_view from.old) (K.sink_view to.old) (G.sink_view logs.old)
        (D.dialer_view dialer.old) (C.clock_view clock.old) (R.dice_view dice.old) (M.store_view store.old))
        (mail_devices_with (P.port port.new) (S.source_view from.new) (K.sink_view to.new) (G.sink_view logs.new)
        (D.dialer_view dialer.new) (C.clock_view clock.new) (R.dice_view dice.new) (M.store_view store.new)) }
    // No count but the store's falls, of which `kept` speaks; and for whom the rules permit, the client's source and the dialer
    // wait as the rules have it at the return, too.
    ensures keeps { KeepsAs (may_relay (kind_of service.now (verdict_of rules.now peer.now)))
        (lent_by (verdict_of rules.now peer.now) rules.now
        (mail_devices_with (P.port port.old) (S.source_view from.old) (K.sink_view to.old) (G.sink_view logs.old)
        (D.dialer_view dialer.old) (C.clock_view clock.old) (R.dice_view dice.old) (M.store_view store.old)))
        (mail_devices_with (P.port port.new) (S.source_view from.new) (K.sink_view to.new) (G.sink_view logs.new)
        (D.dialer_view dialer.new) (C.clock_view clock.new) (R.dice_view dice.new) (M.store_view store.new)) }
{
    let verdict = verdict_of(rules, peer);
    let ending = treat(
        rt, alloc, verdict, service, rules, peer, port, from, to, logs, dialer, store, clock, dice,
    );
    note_ending(service, peer, ending, logs);
    ending
}
