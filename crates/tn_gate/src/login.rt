//! The rows of the login.
ghost use Rattle.std.specs.Prelude.{◌≡◌, ◌≤◌, true, false, length, Some, IfOk};
ghost use Rattle.fw_acts.specs.Ran.{Ran};
ghost use Rattle.tn_gate.specs.Dialogue.{answered_row, answering_row, ask_name, authenticate_row, failed_row, name_row, named_row, naming_row, opened_row, respond_row, response_row, tn_rows};
ghost use Rattle.tn_gate.specs.Distance.{IsNext};
ghost use Rattle.md5.specs.Md5.{md5};
ghost use Rattle.otp_md5.specs.Hexadecimal.{read_of};
ghost use Rattle.session_acts.specs.Met.{is_password};
ghost use Rattle.session_acts.specs.Session.{leads};

use crate::commands::ask_command;
use crate::log_lines::{fail_line, login_line};
use crate::texts::{before_name, challenge_asked, password_asked, password_ended};
use crate::{Place, TnScript};
use auth_events::{Denial, Reply, Request};
use auth_records::Seed;
use fw_outside::Heard;
use fw_types::Name;
use md5::{Digest, Md5};
use otp_md5::read_hex;
use session_acts::{Cause, Stage, tell};

// Tells words and asks for a name.
pub(crate) fn ask_name<D: Stage>(
    stage: &mut D,
    script: &TnScript,
    words: &[u8],
    is_open: bool,
) -> Result<Option<Place>, Cause>
    requires { length words.now ≤ 32 }
    ensures { Ran (tn_rows script.now) (ask_name words.now is_open) leads (D.world stage.old) (D.world stage.new) result }
{
    let _ = script.line;
    let text = before_name(words);
    tell(stage, text.as_slice(), Some(Place::Naming { is_open }))
}

// Logs that a login failed, and then tells so.
#[tactic(auto, using(session_acts::proofs::Acting::acting))]
fn failed_row<D: Stage>(
    stage: &mut D,
    script: &TnScript,
    name: &Name,
    denial: Denial,
    is_open: bool,
) -> Result<Option<Place>, Cause>
    ensures { Ran (tn_rows script.now) (failed_row script.now name.now denial is_open) leads (D.world stage.old)
        (D.world stage.new) result }
{
    let line = fail_line(script, name, denial);
    stage.log(line.as_slice())?;
    ask_name(stage, script, b"Login denied\r\n", is_open)
}

// Asks for a password, which is to be typed unseen.
fn hidden_row<D: Stage>(
    stage: &mut D,
    script: &TnScript,
    name: Name,
) -> Result<Option<Place>, Cause>
    ensures { Ran (tn_rows script.now) (named_row script.now name Reply.Password) leads (D.world stage.old)
        (D.world stage.new) result }
{
    let _ = script.line;
    let text = password_asked();
    tell(
        stage,
        text.as_slice(),
        Some(Place::Answering { name, hidden: true }),
    )
}

// Asks for a one-time password, which may be seen.
fn shown_row<D: Stage>(
    stage: &mut D,
    script: &TnScript,
    name: Name,
    number: u32,
    word_seed: &Seed,
) -> Result<Option<Place>, Cause>
    ensures { Ran (tn_rows script.now) (named_row script.now name (Reply.Challenge number word_seed.now)) leads
        (D.world stage.old) (D.world stage.new) result }
{
    let _ = script.line;
    let text = challenge_asked(number, word_seed);
    tell(
        stage,
        text.as_slice(),
        Some(Place::Answering {
            name,
            hidden: false,
        }),
    )
}

// Asks for the response of a user, or denies the login.
fn named_row<D: Stage>(
    stage: &mut D,
    script: &TnScript,
    name: Name,
    reply: &Reply,
) -> Result<Option<Place>, Cause>
    ensures { Ran (tn_rows script.now) (named_row script.now name reply.now) leads (D.world stage.old)
        (D.world stage.new) result }
{
    match reply {
        Reply::Password => hidden_row(stage, script, name),
        Reply::Challenge { number, word_seed } => {
            shown_row(stage, script, name, *number, word_seed)
        }
        Reply::Denied(denial) => failed_row(stage, script, &name, *denial, true),
        Reply::Opened { .. } => failed_row(stage, script, &name, Denial::NotIn, true),
        Reply::Ok => failed_row(stage, script, &name, Denial::NotIn, true),
        Reply::Shown(_) => failed_row(stage, script, &name, Denial::NotIn, true),
    }
}

// Asks how a user proves who they are.
#[tactic(auto, using(session_acts::proofs::Acting::acting))]
fn authenticate_row<D: Stage>(
    stage: &mut D,
    script: &TnScript,
    name: Name,
) -> Result<Option<Place>, Cause>
    ensures { Ran (tn_rows script.now) (authenticate_row script.now name) leads (D.world stage.old)
        (D.world stage.new) result }
{
    let reply = stage.ask(Request::Authenticate { name: name.twin() })?;
    named_row(stage, script, name, &reply)
}

// Goes on with the name where a session was opened.
fn opened_row<D: Stage>(
    stage: &mut D,
    script: &TnScript,
    name: Name,
    reply: &Reply,
) -> Result<Option<Place>, Cause>
    ensures { Ran (tn_rows script.now) (opened_row script.now name reply.now) leads (D.world stage.old)
        (D.world stage.new) result }
{
    match reply {
        Reply::Opened { .. } => authenticate_row(stage, script, name),
        Reply::Denied(denial) => failed_row(stage, script, &name, *denial, false),
        Reply::Password => failed_row(stage, script, &name, Denial::NotIn, false),
        Reply::Challenge { .. } => failed_row(stage, script, &name, Denial::NotIn, false),
        Reply::Ok => failed_row(stage, script, &name, Denial::NotIn, false),
        Reply::Shown(_) => failed_row(stage, script, &name, Denial::NotIn, false),
    }
}

// Opens a session for the first name.
#[tactic(auto, using(session_acts::proofs::Acting::acting))]
fn first_name_row<D: Stage>(
    stage: &mut D,
    script: &TnScript,
    name: Name,
) -> Result<Option<Place>, Cause>
    ensures { Ran (tn_rows script.now) (name_row script.now false (Some name)) leads (D.world stage.old)
        (D.world stage.new) result }
{
    let reply = stage.ask(Request::Open { console: false })?;
    opened_row(stage, script, name, &reply)
}

// Asks about a name.
fn some_name_row<D: Stage>(
    stage: &mut D,
    script: &TnScript,
    is_open: bool,
    name: Name,
) -> Result<Option<Place>, Cause>
    ensures { Ran (tn_rows script.now) (name_row script.now is_open (Some name)) leads (D.world stage.old)
        (D.world stage.new) result }
{
    if is_open {
        return authenticate_row(stage, script, name);
    }
    first_name_row(stage, script, name)
}

// Asks about a name, or denies a text that is none.
fn name_row<D: Stage>(
    stage: &mut D,
    script: &TnScript,
    is_open: bool,
    name: Option<Name>,
) -> Result<Option<Place>, Cause>
    ensures { Ran (tn_rows script.now) (name_row script.now is_open name) leads (D.world stage.old) (D.world stage.new)
        result }
{
    match name {
        Some(name) => some_name_row(stage, script, is_open, name),
        None => ask_name(stage, script, b"Login denied\r\n", is_open),
    }
}

/// What follows a line where a name is waited for.
pub(crate) fn naming_row<D: Stage>(
    stage: &mut D,
    script: &TnScript,
    is_open: bool,
    heard: Heard,
) -> Result<Option<Place>, Cause>
    ensures ran { Ran (tn_rows script.now) (naming_row script.now is_open heard) leads (D.world stage.old)
        (D.world stage.new) result }
    ensures next { IfOk result (IsNext heard) }
{
    match heard {
        Heard::Line(line) => name_row(stage, script, is_open, Name::read(line.as_slice())),
        Heard::TooLong => name_row(stage, script, is_open, None),
        Heard::Stopped(_) => Ok(None),
    }
}

// Logs a login.
#[tactic(auto, using(session_acts::proofs::Acting::acting))]
fn login_row<D: Stage>(
    stage: &mut D,
    script: &TnScript,
    name: &Name,
) -> Result<Option<Place>, Cause>
    ensures { Ran (tn_rows script.now) (answered_row script.now name.now Reply.Ok) leads (D.world stage.old)
        (D.world stage.new) result }
{
    let line = login_line(script, name);
    stage.log(line.as_slice())?;
    ask_command(stage, script, b"")
}

// Lets the user in, or denies the login.
fn answered_row<D: Stage>(
    stage: &mut D,
    script: &TnScript,
    name: &Name,
    reply: &Reply,
) -> Result<Option<Place>, Cause>
    ensures { Ran (tn_rows script.now) (answered_row script.now name.now reply.now) leads (D.world stage.old)
        (D.world stage.new) result }
{
    match reply {
        Reply::Ok => login_row(stage, script, name),
        Reply::Denied(denial) => failed_row(stage, script, name, *denial, true),
        Reply::Opened { .. } => failed_row(stage, script, name, Denial::NotIn, true),
        Reply::Password => failed_row(stage, script, name, Denial::NotIn, true),
        Reply::Challenge { .. } => failed_row(stage, script, name, Denial::NotIn, true),
        Reply::Shown(_) => failed_row(stage, script, name, Denial::NotIn, true),
    }
}

// What is asked of a response.
fn response(text: &[u8]) -> Request
    ensures is { result ≡ Request.Response (md5 text.now) (read_of text.now) }
    ensures plain { is_password result ≡ false }
{
    Request::Response {
        hash: Md5::digest(text),
        word: read_hex(text),
    }
}

// Asks whether a response is right.
#[tactic(auto, using(session_acts::proofs::Acting::acting))]
fn respond_row<D: Stage>(
    stage: &mut D,
    script: &TnScript,
    name: &Name,
    text: &[u8],
) -> Result<Option<Place>, Cause>
    ensures { Ran (tn_rows script.now) (respond_row script.now name.now text.now) leads (D.world stage.old)
        (D.world stage.new) result }
{
    let reply = stage.ask(response(text))?;
    answered_row(stage, script, name, &reply)
}

// Ends the line of a response that was hidden, and asks whether it is right.
#[tactic(auto, using(session_acts::proofs::Acting::acting))]
fn hidden_response_row<D: Stage>(
    stage: &mut D,
    script: &TnScript,
    name: &Name,
    text: &[u8],
) -> Result<Option<Place>, Cause>
    ensures { Ran (tn_rows script.now) (response_row script.now name.now true text.now) leads (D.world stage.old)
        (D.world stage.new) result }
{
    let end = password_ended();
    stage.say(end.as_slice())?;
    respond_row(stage, script, name, text)
}

fn response_row<D: Stage>(
    stage: &mut D,
    script: &TnScript,
    name: &Name,
    hidden: bool,
    text: &[u8],
) -> Result<Option<Place>, Cause>
    ensures { Ran (tn_rows script.now) (response_row script.now name.now hidden text.now) leads (D.world stage.old)
        (D.world stage.new) result }
{
    if hidden {
        return hidden_response_row(stage, script, name, text);
    }
    respond_row(stage, script, name, text)
}

/// What follows a line where a response is waited for.
pub(crate) fn answering_row<D: Stage>(
    stage: &mut D,
    script: &TnScript,
    name: &Name,
    hidden: bool,
    heard: Heard,
) -> Result<Option<Place>, Cause>
    ensures ran { Ran (tn_rows script.now) (answering_row script.now name.now hidden heard) leads (D.world stage.old)
        (D.world stage.new) result }
    ensures next { IfOk result (IsNext heard) }
{
    match heard {
        Heard::Line(line) => response_row(stage, script, name, hidden, line.as_slice()),
        Heard::TooLong => response_row(stage, script, name, hidden, b""),
        Heard::Stopped(_) => Ok(None),
    }
}
