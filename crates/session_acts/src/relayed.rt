//! A session at the end of whose dialogue there is a relay.
ghost use Rattle.std.specs.Prelude.{◌≡◌, [], true, None};
ghost use Rattle.session_acts.specs.Causes.{Caused, RelayKeeps, RelayTakesFor, WaitsFor};
ghost use Rattle.session_acts.specs.Relayed.{relayed, then_relay};
ghost use Rattle.session_acts.specs.Session.{RelaySession};
ghost use Rattle.session_acts.specs.World.{devices_with, mail_devices_with, unheard};

use crate::desk::Desk;
use crate::link::MOST_TAKEN;
use crate::relaying::relay_after;
use crate::session::{dialogue, finish};
use crate::{NoStore, Script};
use auth_events::AuthPort;
use fw_outside::{Clock, Dialer, Dice, LineReader, Sink, Source};
use fw_types::Ending;
use spool_rack::MailStore;
use std::thread::Threads;

// The session over these devices, before anything was heard, with no session open and no link up.
fn relayed_at<'p, 's, 'k, 'g, 'd, 'l, 'a, 'o, 'c, 'r, 'm, H, P, S, K, G, D, C, R, M, T>(
    rt: &H,
    script: &T,
    desk: &mut Desk<'p, 's, 'k, 'g, 'd, 'l, 'a, 'o, 'c, 'r, 'm, P, S, K, G, D, C, R, M>,
) -> Ending
where
    H: Threads + Sync,
    P: AuthPort,
    S: Source + Send,
    K: Sink + Send,
    G: Sink,
    D: Dialer,
    C: Clock,
    R: Dice,
    M: MailStore,
    T: Script,
    requires reader { desk.old.reader ≡ unheard }
    requires opened { desk.old.opened ≡ None }
    requires lent { desk.old.relays ≡ true }
    requires link { desk.old.link.now ≡ None }
    requires pair { desk.old.pair.now ≡ None }
    requires door { desk.old.door.now ≡ None }
    ensures session { RelaySession (relayed (T.rows script.now P.Origin)) (then_relay (T.first script.now P.Origin))
        (mail_devices_with (P.port desk.old.port.now) (S.source_view desk.old.from.now) (K.sink_view desk.old.to.now)
        (G.sink_view desk.old.logs.now) (D.dialer_view desk.old.dialer.now) (C.clock_view desk.old.clock.now)
        (R.dice_view desk.old.dice.now) (M.store_view desk.old.store.now))
        (mail_devices_with (P.port desk.new.port.now) (S.source_view desk.new.from.now) (K.sink_view desk.new.to.now)
        (G.sink_view desk.new.logs.now) (D.dialer_view desk.new.dialer.now) (C.clock_view desk.new.clock.now)
        (R.dice_view desk.new.dice.now) (M.store_view desk.new.store.now))
        result }
    ensures same_port { desk.new.port.ghost_name ≡ desk.old.port.ghost_name }
    ensures same_from { desk.new.from.ghost_name ≡ desk.old.from.ghost_name }
    ensures same_to { desk.new.to.ghost_name ≡ desk.old.to.ghost_name }
    ensures same_logs { desk.new.logs.ghost_name ≡ desk.old.logs.ghost_name }
    ensures same_dialer { desk.new.dialer.ghost_name ≡ desk.old.dialer.ghost_name }
    ensures same_link { desk.new.link.ghost_name ≡ desk.old.link.ghost_name }
    ensures same_pair { desk.new.pair.ghost_name ≡ desk.old.pair.ghost_name }
    ensures same_door { desk.new.door.ghost_name ≡ desk.old.door.ghost_name }
    ensures same_clock { desk.new.clock.ghost_name ≡ desk.old.clock.ghost_name }
    ensures same_dice { desk.new.dice.ghost_name ≡ desk.old.dice.ghost_name }
    ensures same_store { desk.new.store.ghost_name ≡ desk.old.store.ghost_name }
{
    let talked = dialogue(script, desk);
    let done = relay_after(talked, rt, &mut desk.reader, desk.from, desk.to, desk.link);
    finish(desk, done)
}

// A session with a relay, over a store.
fn relayed_with<H, P, S, K, G, D, C, R, M, T>(
    rt: &H,
    script: &T,
    port: &mut P,
    from: &mut S,
    to: &mut K,
    logs: &mut G,
    dialer: &mut D,
    clock: &mut C,
    dice: &mut R,
    store: &mut M,
) -> Ending
where
    H: Threads + Sync,
    P: AuthPort,
    S: Source + Send,
    K: Sink + Send,
    G: Sink,
    D: Dialer,
    C: Clock,
    R: Dice,
    M: MailStore,
    T: Script,
    ensures session { RelaySession (relayed (T.rows script.now P.Origin)) (then_relay (T.first script.now P.Origin))
        (mail_devices_with (P.port port.old) (S.source_view from.old) (K.sink_view to.old) (G.sink_view logs.old)
        (D.dialer_view dialer.old) (C.clock_view clock.old) (R.dice_view dice.old)
        (M.store_view store.old))
        (mail_devices_with (P.port port.new) (S.source_view from.new) (K.sink_view to.new) (G.sink_view logs.new)
        (D.dialer_view dialer.new) (C.clock_view clock.new) (R.dice_view dice.new)
        (M.store_view store.new))
        result }
{
    let mut link = None;
    let mut pair = None;
    let mut door = None;
    let mut desk = Desk {
        port,
        from,
        to,
        logs,
        dialer,
        link: &mut link,
        pair: &mut pair,
        door: &mut door,
        clock,
        dice,
        store,
        reader: LineReader::new(MOST_TAKEN),
        opened: None,
        relays: true,
    };
    relayed_at(rt, script, &mut desk)
}

/// A session as `session_over`, with a relay at the end of its dialogue, if a link is up then: what was taken ahead goes to
/// the other side first, and then both ways at once, to the ends of both. The dialogue's end is the end where no link is up.
/// Of the client and over the link at most 2^40 bytes are taken, those of the dialogue among them.
pub fn relayed_over<H, P, S, K, G, D, C, R, T>(
    rt: &H,
    script: &T,
    port: &mut P,
    from: &mut S,
    to: &mut K,
    logs: &mut G,
    dialer: &mut D,
    clock: &mut C,
    dice: &mut R,
) -> Ending
where
    H: Threads + Sync,
    P: AuthPort,
    S: Source + Send,
    K: Sink + Send,
    G: Sink,
    D: Dialer,
    C: Clock,
    R: Dice,
    T: Script,
    ensures session { RelaySession (relayed (T.rows script.now P.Origin)) (then_relay (T.first script.now P.Origin))
        (devices_with (P.port port.old) (S.source_view from.old) (K.sink_view to.old) (G.sink_view logs.old)
        (D.dialer_view dialer.old) (C.clock_view clock.old) (R.dice_view dice.old))
        (devices_with (P.port port.new) (S.source_view from.new) (K.sink_view to.new) (G.sink_view logs.new)
        (D.dialer_view dialer.new) (C.clock_view clock.new) (R.dice_view dice.new))
        result }
    ensures keeps { RelayKeeps
        (devices_with (P.port port.old) (S.source_view from.old) (K.sink_view to.old) (G.sink_view logs.old)
        (D.dialer_view dialer.old) (C.clock_view clock.old) (R.dice_view dice.old))
        (devices_with (P.port port.new) (S.source_view from.new) (K.sink_view to.new) (G.sink_view logs.new)
        (D.dialer_view dialer.new) (C.clock_view clock.new) (R.dice_view dice.new)) }
    ensures caused { Caused result
        (devices_with (P.port port.old) (S.source_view from.old) (K.sink_view to.old) (G.sink_view logs.old)
        (D.dialer_view dialer.old) (C.clock_view clock.old) (R.dice_view dice.old))
        (devices_with (P.port port.new) (S.source_view from.new) (K.sink_view to.new) (G.sink_view logs.new)
        (D.dialer_view dialer.new) (C.clock_view clock.new) (R.dice_view dice.new)) }
    ensures waited { WaitsFor result
        (devices_with (P.port port.old) (S.source_view from.old) (K.sink_view to.old) (G.sink_view logs.old)
        (D.dialer_view dialer.old) (C.clock_view clock.old) (R.dice_view dice.old))
        (devices_with (P.port port.new) (S.source_view from.new) (K.sink_view to.new) (G.sink_view logs.new)
        (D.dialer_view dialer.new) (C.clock_view clock.new) (R.dice_view dice.new)) }
    ensures spent { RelayTakesFor result
        (devices_with (P.port port.old) (S.source_view from.old) (K.sink_view to.old) (G.sink_view logs.old)
        (D.dialer_view dialer.old) (C.clock_view clock.old) (R.dice_view dice.old))
        (devices_with (P.port port.new) (S.source_view from.new) (K.sink_view to.new) (G.sink_view logs.new)
        (D.dialer_view dialer.new) (C.clock_view clock.new) (R.dice_view dice.new)) }
{
    let mut store = NoStore;
    relayed_with(
        rt, script, port, from, to, logs, dialer, clock, dice, &mut store,
    )
}
