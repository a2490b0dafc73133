//! The rows of a transfer whose data links are up.
ghost use Rattle.std.specs.Prelude.{◌≡◌, Some, None, true, false};
ghost use Rattle.ftp_gate.specs.Dialogue.{commanded_row, copied_row, ftp_rows, goes_on, is_done, is_up, joined_row, logged_row, started_row};
ghost use Rattle.ftp_gate.specs.Texts.{passed_line};
ghost use Rattle.fw_acts.specs.Acts.Row.{Do};
ghost use Rattle.fw_acts.specs.Ran.{Ran};
ghost use Rattle.session_acts.specs.Acts.Act.{Pass, TakeReply};
ghost use Rattle.session_acts.specs.Session.{leads};

use crate::log_lines::command_line;
use crate::login::tell_row;
use crate::passing::closed_row;
use crate::texts::passed_line;
use crate::verbs::has_verb;
use crate::{FtpScript, Order, Place, State};
use relay_ways::WayEnd;
use session_acts::{Cause, Joined, Replied, ReplyUse, Stage, Toward};

fn is_done(end: Option<WayEnd>) -> bool
    ensures { result ≡ is_done end }
{
    match end {
        Some(end) => matches!(end, WayEnd::Done),
        None => false,
    }
}

// The server's further replies are passed where the copy was done to its end.
fn copied_row<D: Stage>(
    stage: &mut D,
    script: &FtpScript,
    state: State,
    end: Option<WayEnd>,
) -> Result<Option<Place>, Cause>
    ensures { Ran (ftp_rows script.now) (copied_row state (is_done end)) leads (D.world stage.old) (D.world stage.new) result }
{
    let _ = script.line;
    if is_done(end) {
        return Ok(Some(Place::Answering {
            state,
            quits: false,
        }));
    }
    Ok(Some(Place::Dropping { state }))
}

// Copies the data.
#[tactic(auto, using(session_acts::proofs::Acting::acting))]
fn copy_row<D: Stage>(
    stage: &mut D,
    script: &FtpScript,
    state: State,
    toward: Toward,
) -> Result<Option<Place>, Cause>
    ensures { Ran (ftp_rows script.now) (started_row state toward true) leads (D.world stage.old) (D.world stage.new) result }
{
    let end = stage.copy(toward);
    copied_row(stage, script, state, end)
}

// Lets the data links go.
#[tactic(auto, using(session_acts::proofs::Acting::acting))]
fn part_row<D: Stage>(
    stage: &mut D,
    script: &FtpScript,
    state: State,
    toward: Toward,
) -> Result<Option<Place>, Cause>
    ensures { Ran (ftp_rows script.now) (started_row state toward false) leads (D.world stage.old) (D.world stage.new) result }
{
    let _ = (script.line, toward);
    stage.part();
    Ok(Some(Place::Listening { state }))
}

/// Whether further replies follow one with this code.
pub(crate) fn goes_on(code: u16) -> bool
    ensures { result ≡ goes_on code }
{
    code / 100 == 1
}

// Copies the data where the server is about to transfer them.
fn started_row<D: Stage>(
    stage: &mut D,
    script: &FtpScript,
    state: State,
    toward: Toward,
    code: u16,
) -> Result<Option<Place>, Cause>
    ensures { Ran (ftp_rows script.now) (started_row state toward (goes_on code)) leads (D.world stage.old)
        (D.world stage.new) result }
{
    if goes_on(code) {
        return copy_row(stage, script, state, toward);
    }
    part_row(stage, script, state, toward)
}

// What follows the server's reply to the command.
fn commanded_row<D: Stage>(
    stage: &mut D,
    script: &FtpScript,
    state: State,
    toward: Toward,
    replied: Replied,
) -> Result<Option<Place>, Cause>
    ensures { Ran (ftp_rows script.now) (commanded_row state toward replied) leads (D.world stage.old)
        (D.world stage.new) result }
{
    match replied {
        Replied::Whole { code, .. } => started_row(stage, script, state, toward, code),
        Replied::Ended => closed_row(stage, script),
    }
}

// Waits for the server's reply to the command.
#[tactic(auto, using(session_acts::proofs::Acting::acting))]
fn await_row<D: Stage>(
    stage: &mut D,
    script: &FtpScript,
    state: State,
    toward: Toward,
) -> Result<Option<Place>, Cause>
    ensures { Ran (ftp_rows script.now)
        (Do (TakeReply ReplyUse.Passed) (λ heard. commanded_row state toward heard.0)) leads (D.world stage.old)
        (D.world stage.new) result }
{
    let replied = stage.take_reply(ReplyUse::Passed)?;
    commanded_row(stage, script, state, toward, replied)
}

// Passes the command.
#[tactic(auto, using(session_acts::proofs::Acting::acting))]
fn give_row<D: Stage>(
    stage: &mut D,
    script: &FtpScript,
    state: State,
    toward: Toward,
    order: &Order,
) -> Result<Option<Place>, Cause>
    ensures { Ran (ftp_rows script.now) (Do (Pass (passed_line order.now.line))
        (λ done. Do (TakeReply ReplyUse.Passed) (λ heard. commanded_row state toward heard.0))) leads
        (D.world stage.old) (D.world stage.new) result }
{
    let text = passed_line(order.line());
    stage.pass(text.as_slice())?;
    await_row(stage, script, state, toward)
}

// Logs the command, and passes it.
#[tactic(auto, using(session_acts::proofs::Acting::acting))]
fn log_row<D: Stage>(
    stage: &mut D,
    script: &FtpScript,
    state: State,
    toward: Toward,
    order: &Order,
) -> Result<Option<Place>, Cause>
    ensures { Ran (ftp_rows script.now) (logged_row script.now order.now.verb true (Do (Pass (passed_line order.now.line))
        (λ done. Do (TakeReply ReplyUse.Passed) (λ heard. commanded_row state toward heard.0)))) leads
        (D.world stage.old) (D.world stage.new) result }
{
    let line = command_line(script, order.verb());
    stage.log(line.as_slice())?;
    give_row(stage, script, state, toward, order)
}

// Both data links are up.
fn up_row<D: Stage>(
    stage: &mut D,
    script: &FtpScript,
    state: State,
    toward: Toward,
    order: &Order,
) -> Result<Option<Place>, Cause>
    ensures { Ran (ftp_rows script.now) (joined_row script.now state toward order.now true) leads (D.world stage.old)
        (D.world stage.new) result }
{
    if has_verb(&script.options().log, order.verb()) {
        return log_row(stage, script, state, toward, order);
    }
    give_row(stage, script, state, toward, order)
}

fn is_up(joined: Joined) -> bool
    ensures { result ≡ is_up joined }
{
    match joined {
        Joined::Up => true,
        Joined::NoSide | Joined::NoNear | Joined::Unready => false,
    }
}

/// Goes on where both data links came up.
pub(crate) fn joined_row<D: Stage>(
    stage: &mut D,
    script: &FtpScript,
    state: State,
    toward: Toward,
    order: &Order,
    joined: Joined,
) -> Result<Option<Place>, Cause>
    ensures { Ran (ftp_rows script.now) (joined_row script.now state toward order.now (is_up joined)) leads
        (D.world stage.old) (D.world stage.new) result }
{
    if is_up(joined) {
        return up_row(stage, script, state, toward, order);
    }
    tell_row(stage, script, b"425 No data link\r\n", state)
}
