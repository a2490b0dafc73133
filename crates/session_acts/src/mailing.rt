//! A session with a mail store.
ghost use Rattle.std.specs.Prelude.{◌≡◌, None};
ghost use Rattle.session_acts.specs.Causes.{Caused, SessionKeeps, TakesFor, WaitsFor};
ghost use Rattle.session_acts.specs.Session.{Session};
ghost use Rattle.session_acts.specs.World.{mail_devices_with, unheard};

use crate::Script;
use crate::desk::Desk;
use crate::link::MOST_TAKEN;
use crate::session::session_at;
use auth_events::AuthPort;
use fw_outside::{Clock, Dialer, Dice, LineReader, Sink, Source};
use fw_types::Ending;
use spool_rack::MailStore;

/// A session as `session_over`, with a mail store. Each slot that it takes is put back by the act that took it.
pub fn mail_session_over<P, S, K, G, D, C, R, M, T>(
    script: &T,
    port: &mut P,
    from: &mut S,
    to: &mut K,
    logs: &mut G,
    dialer: &mut D,
    clock: &mut C,
    dice: &mut R,
    store: &mut M,
) -> Ending
where
    P: AuthPort,
    S: Source,
    K: Sink,
    G: Sink,
    D: Dialer,
    C: Clock,
    R: Dice,
    M: MailStore,
    T: Script,
    ensures session { Session (T.rows script.now P.Origin) (T.first script.now P.Origin)
        (mail_devices_with (P.port port.old) (S.source_view from.old) (K.sink_view to.old) (G.sink_view logs.old)
        (D.dialer_view dialer.old) (C.clock_view clock.old) (R.dice_view dice.old)
        (M.store_view store.old))
        (mail_devices_with (P.port port.new) (S.source_view from.new) (K.sink_view to.new) (G.sink_view logs.new)
        (D.dialer_view dialer.new) (C.clock_view clock.new) (R.dice_view dice.new)
        (M.store_view store.new))
        result }
    ensures keeps { SessionKeeps
        (mail_devices_with (P.port port.old) (S.source_view from.old) (K.sink_view to.old) (G.sink_view logs.old)
        (D.dialer_view dialer.old) (C.clock_view clock.old) (R.dice_view dice.old)
        (M.store_view store.old))
        (mail_devices_with (P.port port.new) (S.source_view from.new) (K.sink_view to.new) (G.sink_view logs.new)
        (D.dialer_view dialer.new) (C.clock_view clock.new) (R.dice_view dice.new)
        (M.store_view store.new)) }
    ensures caused { Caused result
        (mail_devices_with (P.port port.old) (S.source_view from.old) (K.sink_view to.old) (G.sink_view logs.old)
        (D.dialer_view dialer.old) (C.clock_view clock.old) (R.dice_view dice.old)
        (M.store_view store.old))
        (mail_devices_with (P.port port.new) (S.source_view from.new) (K.sink_view to.new) (G.sink_view logs.new)
        (D.dialer_view dialer.new) (C.clock_view clock.new) (R.dice_view dice.new)
        (M.store_view store.new)) }
    ensures waited { WaitsFor result
        (mail_devices_with (P.port port.old) (S.source_view from.old) (K.sink_view to.old) (G.sink_view logs.old)
        (D.dialer_view dialer.old) (C.clock_view clock.old) (R.dice_view dice.old)
        (M.store_view store.old))
        (mail_devices_with (P.port port.new) (S.source_view from.new) (K.sink_view to.new) (G.sink_view logs.new)
        (D.dialer_view dialer.new) (C.clock_view clock.new) (R.dice_view dice.new)
        (M.store_view store.new)) }
    ensures spent { TakesFor result
        (mail_devices_with (P.port port.old) (S.source_view from.old) (K.sink_view to.old) (G.sink_view logs.old)
        (D.dialer_view dialer.old) (C.clock_view clock.old) (R.dice_view dice.old)
        (M.store_view store.old))
        (mail_devices_with (P.port port.new) (S.source_view from.new) (K.sink_view to.new) (G.sink_view logs.new)
        (D.dialer_view dialer.new) (C.clock_view clock.new) (R.dice_view dice.new)
        (M.store_view store.new)) }
{
    let mut link = None;
    let mut pair = None;
    let mut door = None;
    let mut desk = Desk {
        port,
        from,
        to,
        logs,
        dialer,
        link: &mut link,
        pair: &mut pair,
        door: &mut door,
        clock,
        dice,
        store,
        reader: LineReader::new(MOST_TAKEN),
        opened: None,
        relays: false,
    };
    session_at(script, &mut desk)
}
