//! A session from its first row to its ending.
ghost use Rattle.std.specs.Prelude.{◌≡◌, [], false, None};
ghost use Rattle.fw_acts.specs.Acts.Row.{Over};
ghost use Rattle.fw_acts.specs.Ran.{Ran};
ghost use Rattle.session_acts.specs.Causes.{Caused, SessionKeeps, TakesFor, WaitsFor};
ghost use Rattle.session_acts.specs.Closing.{Closing, ending_told};
ghost use Rattle.session_acts.specs.Deeds.{DeedsAll};
ghost use Rattle.session_acts.specs.Finishing.{Finishing};
ghost use Rattle.session_acts.specs.Session.{Held, Session, ending_by, freeing};
ghost use Rattle.session_acts.specs.World.{devices_with, mail_devices_with, unheard};

use crate::desk::Desk;
use crate::mailing::mail_session_over;
use crate::{Cause, NoStore, Script, Stage};
use auth_events::{AuthPort, Request};
use fw_outside::{Clock, Dialer, Dice, Sink, Source};
use fw_types::Ending;
use spool_rack::MailStore;

// The dialogue, to its end or to the act at which it stopped.
fn turns<T: Script, D: Stage>(script: &T, stage: &mut D) -> Result<(), Cause>
    ensures { Ran (T.rows script.now D.Origin) (T.first script.now D.Origin) (λ done. Over)
        (D.world stage.old) (D.world stage.new) result }
{
    let mut next = script.begin(stage)?;
    while let Some(place) = next {
        next = script.turn(stage, place)?;
    }
    Ok(())
}

// So it is, and the references stay.
pub(crate) fn dialogue<T: Script, D: Stage>(script: &T, stage: &mut D) -> Result<(), Cause>
    ensures ran { Ran (T.rows script.now D.Origin) (T.first script.now D.Origin) (λ done. Over)
        (D.world stage.old) (D.world stage.new) result }
    ensures names { (D.world stage.new).names.devices ≡ (D.world stage.old).names.devices }
{
    turns(script, stage)
}

// Hangs up a link that is up.
fn free<D: Stage>(stage: &mut D)
    ensures { DeedsAll (freeing (D.world stage.old).server.link) (D.world stage.old) (D.world stage.new) }
{
    if stage.is_linked() {
        stage.hang_up();
    }
}

// Asks Close where that is owed.
fn close<D: Stage>(stage: &mut D) -> Result<(), Cause>
    ensures { Closing result (D.world stage.old).office.opened (D.world stage.old) (D.world stage.new) }
{
    if !stage.is_open() {
        return Ok(());
    }
    match stage.ask(Request::Close) {
        Ok(_) => Ok(()),
        Err(cause) => Err(cause),
    }
}

fn ending_by(cause: Cause) -> Ending
    ensures { result ≡ ending_by cause }
{
    match cause {
        Cause::ClientFault => Ending::ClientFault,
        Cause::ServerFault => Ending::ServerFault,
        Cause::LogFault => Ending::LogFault,
        Cause::AuthFault => Ending::AuthFault,
        Cause::Idle => Ending::Idle,
        Cause::NoRoute => Ending::NoRoute,
        Cause::Spent => Ending::Spent,
        Cause::NoMemory => Ending::NoMemory,
    }
}

// A session ends by the first of these that stopped.
fn ending_told(dialogue: Result<(), Cause>, closed: Result<(), Cause>) -> Ending
    ensures { result ≡ ending_told dialogue closed }
{
    match dialogue {
        Ok(()) => match closed {
            Ok(()) => Ending::Done,
            Err(cause) => ending_by(cause),
        },
        Err(cause) => ending_by(cause),
    }
}

// What is owed after a dialogue, with a relay behind it or not; and how the session ends.
pub(crate) fn finish<D: Stage>(stage: &mut D, dialogue: Result<(), Cause>) -> Ending
    ensures finishing { Finishing dialogue (D.world stage.old) (D.world stage.new) result }
    ensures names { (D.world stage.new).names.devices ≡ (D.world stage.old).names.devices }
{
    free(stage);
    let closed = close(stage);
    ending_told(dialogue, closed)
}

// The session on a stage.
fn held<T: Script, D: Stage>(script: &T, stage: &mut D) -> Ending
    ensures held { Held (T.rows script.now D.Origin) (T.first script.now D.Origin) (D.world stage.old)
        (D.world stage.new) result }
    ensures names { (D.world stage.new).names.devices ≡ (D.world stage.old).names.devices }
{
    let dialogue = dialogue(script, stage);
    finish(stage, dialogue)
}

// The session over these devices, before anything was heard, with no session open and no link up.
pub(crate) fn session_at<'p, 's, 'k, 'g, 'd, 'l, 'a, 'o, 'c, 'r, 'm, P, S, K, G, D, C, R, M, T>(
    script: &T,
    desk: &mut Desk<'p, 's, 'k, 'g, 'd, 'l, 'a, 'o, 'c, 'r, 'm, P, S, K, G, D, C, R, M>,
) -> Ending
where
    P: AuthPort,
    S: Source,
    K: Sink,
    G: Sink,
    D: Dialer,
    C: Clock,
    R: Dice,
    M: MailStore,
    T: Script,
    requires reader { desk.old.reader ≡ unheard }
    requires opened { desk.old.opened ≡ None }
    requires alone { desk.old.relays ≡ false }
    requires link { desk.old.link.now ≡ None }
    requires pair { desk.old.pair.now ≡ None }
    requires door { desk.old.door.now ≡ None }
    ensures session { Session (T.rows script.now P.Origin) (T.first script.now P.Origin)
        (mail_devices_with (P.port desk.old.port.now) (S.source_view desk.old.from.now) (K.sink_view desk.old.to.now)
        (G.sink_view desk.old.logs.now) (D.dialer_view desk.old.dialer.now) (C.clock_view desk.old.clock.now)
        (R.dice_view desk.old.dice.now) (M.store_view desk.old.store.now))
        (mail_devices_with (P.port desk.new.port.now) (S.source_view desk.new.from.now) (K.sink_view desk.new.to.now)
        (G.sink_view desk.new.logs.now) (D.dialer_view desk.new.dialer.now) (C.clock_view desk.new.clock.now)
        (R.dice_view desk.new.dice.now) (M.store_view desk.new.store.now))
        result }
    ensures same_port { desk.new.port.ghost_name ≡ desk.old.port.ghost_name }
    ensures same_from { desk.new.from.ghost_name ≡ desk.old.from.ghost_name }
    ensures same_to { desk.new.to.ghost_name ≡ desk.old.to.ghost_name }
    ensures same_logs { desk.new.logs.ghost_name ≡ desk.old.logs.ghost_name }
    ensures same_dialer { desk.new.dialer.ghost_name ≡ desk.old.dialer.ghost_name }
    ensures same_link { desk.new.link.ghost_name ≡ desk.old.link.ghost_name }
    ensures same_pair { desk.new.pair.ghost_name ≡ desk.old.pair.ghost_name }
    ensures same_door { desk.new.door.ghost_name ≡ desk.old.door.ghost_name }
    ensures same_clock { desk.new.clock.ghost_name ≡ desk.old.clock.ghost_name }
    ensures same_dice { desk.new.dice.ghost_name ≡ desk.old.dice.ghost_name }
    ensures same_store { desk.new.store.ghost_name ≡ desk.old.store.ghost_name }
{
    held(script, desk)
}

/// A session: what its script does first, and then turn by turn what it does at each place, to its end or to the act at
/// which it stops. Then a link that is up is hung up, and the session that was opened last is asked to close if it wasn't.
/// It takes at most 2^40 bytes from the client.
pub fn session_over<P, S, K, G, D, C, R, T>(
    script: &T,
    port: &mut P,
    from: &mut S,
    to: &mut K,
    logs: &mut G,
    dialer: &mut D,
    clock: &mut C,
    dice: &mut R,
) -> Ending
where
    P: AuthPort,
    S: Source,
    K: Sink,
    G: Sink,
    D: Dialer,
    C: Clock,
    R: Dice,
    T: Script,
    ensures session { Session (T.rows script.now P.Origin) (T.first script.now P.Origin)
        (devices_with (P.port port.old) (S.source_view from.old) (K.sink_view to.old) (G.sink_view logs.old)
        (D.dialer_view dialer.old) (C.clock_view clock.old) (R.dice_view dice.old))
        (devices_with (P.port port.new) (S.source_view from.new) (K.sink_view to.new) (G.sink_view logs.new)
        (D.dialer_view dialer.new) (C.clock_view clock.new) (R.dice_view dice.new))
        result }
    ensures keeps { SessionKeeps
        (devices_with (P.port port.old) (S.source_view from.old) (K.sink_view to.old) (G.sink_view logs.old)
        (D.dialer_view dialer.old) (C.clock_view clock.old) (R.dice_view dice.old))
        (devices_with (P.port port.new) (S.source_view from.new) (K.sink_view to.new) (G.sink_view logs.new)
        (D.dialer_view dialer.new) (C.clock_view clock.new) (R.dice_view dice.new)) }
    ensures caused { Caused result
        (devices_with (P.port port.old) (S.source_view from.old) (K.sink_view to.old) (G.sink_view logs.old)
        (D.dialer_view dialer.old) (C.clock_view clock.old) (R.dice_view dice.old))
        (devices_with (P.port port.new) (S.source_view from.new) (K.sink_view to.new) (G.sink_view logs.new)
        (D.dialer_view dialer.new) (C.clock_view clock.new) (R.dice_view dice.new)) }
    ensures waited { WaitsFor result
        (devices_with (P.port port.old) (S.source_view from.old) (K.sink_view to.old) (G.sink_view logs.old)
        (D.dialer_view dialer.old) (C.clock_view clock.old) (R.dice_view dice.old))
        (devices_with (P.port port.new) (S.source_view from.new) (K.sink_view to.new) (G.sink_view logs.new)
        (D.dialer_view dialer.new) (C.clock_view clock.new) (R.dice_view dice.new)) }
    ensures spent { TakesFor result
        (devices_with (P.port port.old) (S.source_view from.old) (K.sink_view to.old) (G.sink_view logs.old)
        (D.dialer_view dialer.old) (C.clock_view clock.old) (R.dice_view dice.old))
        (devices_with (P.port port.new) (S.source_view from.new) (K.sink_view to.new) (G.sink_view logs.new)
        (D.dialer_view dialer.new) (C.clock_view clock.new) (R.dice_view dice.new)) }
{
    let mut store = NoStore;
    mail_session_over(
        script, port, from, to, logs, dialer, clock, dice, &mut store,
    )
}
