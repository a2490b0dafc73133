//! What follows a reply of the server.
ghost use Rattle.std.specs.Prelude.{◌≡◌, ◌<◌, ◌≤◌, false, IfOk, IfSome};
ghost use Rattle.ftp_gate.specs.Dialogue.{after_row, answering_row, dropped_row, dropping_row, ftp_rows, goes_on, passed_row};
ghost use Rattle.ftp_gate.specs.Distance.{IsBehind, distance};
ghost use Rattle.fw_acts.specs.Acts.Row.{At};
ghost use Rattle.fw_acts.specs.Ran.{Ran};
ghost use Rattle.session_acts.specs.Distance.{ahead_of_server};
ghost use Rattle.session_acts.specs.Session.{leads};

use crate::copies::goes_on;
use crate::passing::closed_row;
use crate::{FtpScript, Place, State};
use session_acts::{Cause, Replied, ReplyUse, Stage};

// Comes to the end behind the last reply, or hears the client again.
fn after_row<D: Stage>(
    stage: &mut D,
    script: &FtpScript,
    state: State,
    quits: bool,
) -> Result<Option<Place>, Cause>
    ensures ran { Ran (ftp_rows script.now) (after_row state quits) leads (D.world stage.old) (D.world stage.new) result }
    ensures near { ahead_of_server (D.world stage.new) ≤ ahead_of_server (D.world stage.old) }
{
    let _ = script.line;
    if quits {
        return Ok(None);
    }
    Ok(Some(Place::Listening { state }))
}

// What follows a whole reply that was passed.
fn passed_row<D: Stage>(
    stage: &mut D,
    script: &FtpScript,
    state: State,
    quits: bool,
    code: u16,
) -> Result<Option<Place>, Cause>
    ensures ran { Ran (ftp_rows script.now) (passed_row state quits (goes_on code)) leads (D.world stage.old)
        (D.world stage.new) result }
    ensures near { ahead_of_server (D.world stage.new) ≤ ahead_of_server (D.world stage.old) }
{
    if goes_on(code) {
        return Ok(Some(Place::Answering { state, quits }));
    }
    after_row(stage, script, state, quits)
}

// What follows a reply that was passed.
fn answered_row<D: Stage>(
    stage: &mut D,
    script: &FtpScript,
    state: State,
    quits: bool,
    replied: Replied,
) -> Result<Option<Place>, Cause>
    ensures ran { Ran (ftp_rows script.now) (answering_row state quits replied) leads (D.world stage.old)
        (D.world stage.new) result }
    ensures near { IfOk result (IsBehind replied (ahead_of_server (D.world stage.old)) (ahead_of_server (D.world stage.new))) }
{
    match replied {
        Replied::Whole { code, .. } => passed_row(stage, script, state, quits, code),
        Replied::Ended => closed_row(stage, script),
    }
}

/// Waits for a reply, which is passed.
pub(crate) fn answering_turn<D: Stage>(
    stage: &mut D,
    script: &FtpScript,
    state: State,
    quits: bool,
) -> Result<Option<Place>, Cause>
    ensures ran { Ran (ftp_rows script.now) (At (Place.Answering state quits)) leads (D.world stage.old)
        (D.world stage.new) result }
    ensures nearer { IfOk result (λ next. IfSome next (λ p.
        distance p (D.world stage.new) < distance (Place.Answering state quits) (D.world stage.old))) }
{
    let replied = stage.take_reply(ReplyUse::Passed)?;
    answered_row(stage, script, state, quits, replied)
}

// Tells that a transfer ended early.
fn early_row<D: Stage>(
    stage: &mut D,
    script: &FtpScript,
    state: State,
) -> Result<Option<Place>, Cause>
    ensures ran { Ran (ftp_rows script.now) (dropped_row state false) leads (D.world stage.old) (D.world stage.new) result }
    ensures near { ahead_of_server (D.world stage.new) ≤ ahead_of_server (D.world stage.old) }
{
    let _ = script.line;
    match stage.say(b"426 Transfer ended early\r\n") {
        Ok(()) => Ok(Some(Place::Listening { state })),
        Err(cause) => Err(cause),
    }
}

// What follows a whole reply that wasn't passed.
fn dropped_row<D: Stage>(
    stage: &mut D,
    script: &FtpScript,
    state: State,
    code: u16,
) -> Result<Option<Place>, Cause>
    ensures ran { Ran (ftp_rows script.now) (dropped_row state (goes_on code)) leads (D.world stage.old)
        (D.world stage.new) result }
    ensures near { ahead_of_server (D.world stage.new) ≤ ahead_of_server (D.world stage.old) }
{
    if goes_on(code) {
        return Ok(Some(Place::Dropping { state }));
    }
    early_row(stage, script, state)
}

// What follows a reply that wasn't passed.
fn unanswered_row<D: Stage>(
    stage: &mut D,
    script: &FtpScript,
    state: State,
    replied: Replied,
) -> Result<Option<Place>, Cause>
    ensures ran { Ran (ftp_rows script.now) (dropping_row state replied) leads (D.world stage.old)
        (D.world stage.new) result }
    ensures near { IfOk result (IsBehind replied (ahead_of_server (D.world stage.old)) (ahead_of_server (D.world stage.new))) }
{
    match replied {
        Replied::Whole { code, .. } => dropped_row(stage, script, state, code),
        Replied::Ended => closed_row(stage, script),
    }
}

/// Waits for a reply, which isn't passed.
pub(crate) fn dropping_turn<D: Stage>(
    stage: &mut D,
    script: &FtpScript,
    state: State,
) -> Result<Option<Place>, Cause>
    ensures ran { Ran (ftp_rows script.now) (At (Place.Dropping state)) leads (D.world stage.old)
        (D.world stage.new) result }
    ensures nearer { IfOk result (λ next. IfSome next (λ p.
        distance p (D.world stage.new) < distance (Place.Dropping state) (D.world stage.old))) }
{
    let replied = stage.take_reply(ReplyUse::Dropped)?;
    unanswered_row(stage, script, state, replied)
}
