//! The rows that give the server a line.
ghost use Rattle.std.specs.Prelude.{◌≡◌, ◌≤◌, codes, length, None, true, false, IfOk};
ghost use Rattle.ftp_gate.specs.Dialogue.{closed_row, ftp_rows, logged_row, pass_row, pass_user_row};
ghost use Rattle.ftp_gate.specs.Gate.{has_verb};
ghost use Rattle.fw_acts.specs.Acts.Row.{At, Do};
ghost use Rattle.fw_acts.specs.Ran.{Ran};
ghost use Rattle.session_acts.specs.Acts.Act.{Pass};
ghost use Rattle.session_acts.specs.Session.{leads};

use crate::log_lines::command_line;
use crate::texts::user_text;
use crate::verbs::has_verb;
use crate::{FtpScript, Place, State};
use fw_types::Verb;
use session_acts::{Cause, Stage, tell};

/// Tells that the server ended, which ends the session.
pub(crate) fn closed_row<D: Stage>(
    stage: &mut D,
    script: &FtpScript,
) -> Result<Option<Place>, Cause>
    ensures ran { Ran (ftp_rows script.now) closed_row leads (D.world stage.old) (D.world stage.new) result }
    ensures over { IfOk result (λ next. next ≡ None) }
{
    let _ = script.line;
    tell(stage, b"421 Server closed\r\n", None)
}

// Gives the server a line, whose replies are heard then.
#[tactic(auto, using(session_acts::proofs::Acting::acting))]
fn give_row<D: Stage>(
    stage: &mut D,
    script: &FtpScript,
    state: State,
    text: &[u8],
    quits: bool,
) -> Result<Option<Place>, Cause>
    ensures { Ran (ftp_rows script.now) (Do (Pass text.now) (λ done. At (Place.Answering state quits))) leads
        (D.world stage.old) (D.world stage.new) result }
{
    let _ = script.line;
    stage.pass(text)?;
    Ok(Some(Place::Answering { state, quits }))
}

// Logs the verb, and gives the server a line.
#[tactic(auto, using(session_acts::proofs::Acting::acting))]
fn log_row<D: Stage>(
    stage: &mut D,
    script: &FtpScript,
    state: State,
    verb: &Verb,
    text: &[u8],
    quits: bool,
) -> Result<Option<Place>, Cause>
    ensures { Ran (ftp_rows script.now)
        (logged_row script.now verb.now true (Do (Pass text.now) (λ done. At (Place.Answering state quits)))) leads
        (D.world stage.old) (D.world stage.new) result }
{
    let line = command_line(script, verb);
    stage.log(line.as_slice())?;
    give_row(stage, script, state, text, quits)
}

/// Passes a line of this verb to the server, whose replies are heard then.
pub(crate) fn pass_row<D: Stage>(
    stage: &mut D,
    script: &FtpScript,
    state: State,
    verb: &Verb,
    text: &[u8],
    quits: bool,
) -> Result<Option<Place>, Cause>
    ensures { Ran (ftp_rows script.now) (pass_row script.now state verb.now text.now quits) leads
        (D.world stage.old) (D.world stage.new) result }
{
    if has_verb(&script.options().log, verb) {
        return log_row(stage, script, state, verb, text, quits);
    }
    give_row(stage, script, state, text, quits)
}

// The verb of a user.
fn user_verb() -> Verb
    ensures { result ≡ codes "USER" }
{
    let Some(verb) = Verb::read(b"USER") else {
        unreachable!();
    };
    verb
}

/// Names a user to the server.
pub(crate) fn pass_user_row<D: Stage>(
    stage: &mut D,
    script: &FtpScript,
    state: State,
    name: &[u8],
) -> Result<Option<Place>, Cause>
    requires { length name.now ≤ 512 }
    ensures { Ran (ftp_rows script.now) (pass_user_row script.now state name.now) leads (D.world stage.old)
        (D.world stage.new) result }
{
    let verb = user_verb();
    let text = user_text(name);
    pass_row(stage, script, state, &verb, text.as_slice(), false)
}
