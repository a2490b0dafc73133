ghost use Rattle.std.specs.Prelude.{◌≡◌, true};
ghost use Rattle.authsrv_gate.specs.Dialogue.{rows, session_row};
ghost use Rattle.authsrv_gate.specs.Session.{is_own, lent};
ghost use Rattle.session_acts.specs.Causes.{SessionKeeps, WaitsFor};
ghost use Rattle.session_acts.specs.Serverless.{CausedAlone, TakesExactly};
ghost use Rattle.session_acts.specs.Session.{Session};

use crate::AuthsrvScript;
use auth_events::AuthPort;
use fw_outside::{Clock, Dice, Sink, Source};
use fw_types::Ending;
use session_acts::{Nowhere, Silent, session_over};

/// A session of `authsrv`: from the client's bytes to replies, each request asked of the port at a moment of the clock.
/// The salts of new passwords come from the dice. It takes at most 2^40 bytes from the client.
///
/// The answer is `Done` after `quit`, at the end of what the client says, or where the port denied to open a session;
/// else why the session stopped, which the device that failed or was idle has counted. It is `Spent` exactly
/// where 2^40 bytes were taken, and then nothing more is heard. After a stop, Close is asked of a session that is open and wasn't asked to
/// close; where the last Close gets no answer, the session isn't `Done`, but ends for that.
pub fn authsrv_session<P: AuthPort, S: Source, K: Sink, C: Clock, R: Dice>(
    console: bool,
    port: &mut P,
    from: &mut S,
    to: &mut K,
    clock: &mut C,
    dice: &mut R,
) -> Ending
    ensures session { Session rows (session_row console)
        (lent (P.port port.old) (S.source_view from.old) (K.sink_view to.old) (C.clock_view clock.old)
        (R.dice_view dice.old))
        (lent (P.port port.new) (S.source_view from.new) (K.sink_view to.new) (C.clock_view clock.new)
        (R.dice_view dice.new))
        result }
    ensures keeps { SessionKeeps
        (lent (P.port port.old) (S.source_view from.old) (K.sink_view to.old) (C.clock_view clock.old)
        (R.dice_view dice.old))
        (lent (P.port port.new) (S.source_view from.new) (K.sink_view to.new) (C.clock_view clock.new)
        (R.dice_view dice.new)) }
    ensures caused { CausedAlone result
        (lent (P.port port.old) (S.source_view from.old) (K.sink_view to.old) (C.clock_view clock.old)
        (R.dice_view dice.old))
        (lent (P.port port.new) (S.source_view from.new) (K.sink_view to.new) (C.clock_view clock.new)
        (R.dice_view dice.new)) }
    ensures waited { WaitsFor result
        (lent (P.port port.old) (S.source_view from.old) (K.sink_view to.old) (C.clock_view clock.old)
        (R.dice_view dice.old))
        (lent (P.port port.new) (S.source_view from.new) (K.sink_view to.new) (C.clock_view clock.new)
        (R.dice_view dice.new)) }
    ensures spent { TakesExactly result
        (lent (P.port port.old) (S.source_view from.old) (K.sink_view to.old) (C.clock_view clock.old)
        (R.dice_view dice.old))
        (lent (P.port port.new) (S.source_view from.new) (K.sink_view to.new) (C.clock_view clock.new)
        (R.dice_view dice.new)) }
    ensures own { is_own result ≡ true }
{
    let script = AuthsrvScript { console };
    let mut logs = Silent;
    let mut dialer = Nowhere::new();
    session_over(&script, port, from, to, &mut logs, &mut dialer, clock, dice)
}
