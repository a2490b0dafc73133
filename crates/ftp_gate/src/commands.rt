//! What follows a line of the client.
ghost use Rattle.std.specs.Prelude.{◌≡◌, ◌&&◌, false, not, true, IfOk};
ghost use Rattle.ftp_gate.specs.Dialogue.{allowed_row, blocked_row, command_row, ftp_rows, heard_row, is_in, kind_row, linked_row, login_row, outward_row, pass_row, served_row, unlinked_row};
ghost use Rattle.ftp_gate.specs.Distance.{IsNext};
ghost use Rattle.ftp_gate.specs.Gate.{asks_login, has_verb};
ghost use Rattle.ftp_gate.specs.Kind.{is_quit};
ghost use Rattle.ftp_gate.specs.Texts.{passed_line};
ghost use Rattle.fw_acts.specs.Ran.{Ran};
ghost use Rattle.session_acts.specs.Session.{leads};

use crate::destinations::user_row;
use crate::kind::{Kind, Outward, Served, is_quit, kind_of};
use crate::log_lines::blocked_line;
use crate::login::{authorize_row, response_row, tell_row};
use crate::passing::pass_row;
use crate::settings::{door_row, port_row};
use crate::texts::{log_in_first, passed_line, verb_denied};
use crate::transfers::transfer_row;
use crate::verbs::{asks_login, has_verb};
use crate::{Account, FtpScript, Order, Place, State};
use fw_outside::Heard;
use fw_types::{Dest, Verb};
use session_acts::{Cause, Stage, tell};

// Passes the command as it came.
fn line_row<D: Stage>(
    stage: &mut D,
    script: &FtpScript,
    state: State,
    order: &Order,
    quits: bool,
) -> Result<Option<Place>, Cause>
    ensures { Ran (ftp_rows script.now) (pass_row script.now state order.now.verb (passed_line order.now.line) quits)
        leads (D.world stage.old) (D.world stage.new) result }
{
    let text = passed_line(order.line());
    pass_row(stage, script, state, order.verb(), text.as_slice(), quits)
}

// What is asked for where a link is up.
fn linked_row<D: Stage>(
    stage: &mut D,
    script: &FtpScript,
    state: State,
    dest: &Dest,
    order: &Order,
    asked: Served,
) -> Result<Option<Place>, Cause>
    ensures { Ran (ftp_rows script.now) (linked_row script.now state dest.now order.now asked) leads
        (D.world stage.old) (D.world stage.new) result }
{
    match asked {
        Served::Port => port_row(stage, script, state, order.arg()),
        Served::Pasv => door_row(stage, script, state),
        Served::Extended => tell_row(stage, script, b"502 Not implemented\r\n", state),
        Served::Transfer(toward) => transfer_row(stage, script, state, dest, toward, order),
        Served::Quit => line_row(stage, script, state, order, true),
        Served::Other => line_row(stage, script, state, order, false),
    }
}

// Where none is up, the session may end.
fn unlinked_row<D: Stage>(
    stage: &mut D,
    script: &FtpScript,
    state: State,
    order: &Order,
) -> Result<Option<Place>, Cause>
    ensures { Ran (ftp_rows script.now) (unlinked_row state (is_quit order.now.verb)) leads (D.world stage.old)
        (D.world stage.new) result }
{
    if is_quit(order.verb().text()) {
        return tell(stage, b"221 Goodbye\r\n", None);
    }
    tell_row(stage, script, b"530 USER name@host first\r\n", state)
}

fn served_row<D: Stage>(
    stage: &mut D,
    script: &FtpScript,
    state: State,
    order: &Order,
    asked: Served,
) -> Result<Option<Place>, Cause>
    ensures { Ran (ftp_rows script.now) (served_row script.now state state.dest order.now asked) leads
        (D.world stage.old) (D.world stage.new) result }
{
    match &state.dest {
        Some(dest) => {
            let dest = dest.twin();
            linked_row(stage, script, state, &dest, order, asked)
        }
        None => unlinked_row(stage, script, state, order),
    }
}

// A command that isn't blocked.
fn allowed_row<D: Stage>(
    stage: &mut D,
    script: &FtpScript,
    state: State,
    order: &Order,
    asked: Outward,
) -> Result<Option<Place>, Cause>
    ensures { Ran (ftp_rows script.now) (allowed_row script.now state order.now asked) leads (D.world stage.old)
        (D.world stage.new) result }
{
    match asked {
        Outward::User => user_row(stage, script, state, order.arg()),
        Outward::Served(asked) => served_row(stage, script, state, order, asked),
    }
}

// Logs that a verb is blocked, and tells so.
#[tactic(auto, using(session_acts::proofs::Acting::acting))]
fn blocked_row<D: Stage>(
    stage: &mut D,
    script: &FtpScript,
    state: State,
    verb: &Verb,
    words: &[u8],
) -> Result<Option<Place>, Cause>
    ensures { Ran (ftp_rows script.now) (blocked_row script.now state verb.now words.now) leads (D.world stage.old)
        (D.world stage.new) result }
{
    let line = blocked_line(script, verb);
    stage.log(line.as_slice())?;
    tell_row(stage, script, words, state)
}

// A login is asked for.
fn unknown_row<D: Stage>(
    stage: &mut D,
    script: &FtpScript,
    state: State,
    order: &Order,
    asked: Outward,
) -> Result<Option<Place>, Cause>
    ensures { Ran (ftp_rows script.now) (login_row script.now state order.now asked true) leads (D.world stage.old)
        (D.world stage.new) result }
{
    let _ = asked;
    let words = log_in_first(script.line());
    blocked_row(stage, script, state, order.verb(), words.as_slice())
}

// The verb is denied.
fn denied_row<D: Stage>(
    stage: &mut D,
    script: &FtpScript,
    state: State,
    order: &Order,
    asked: Outward,
) -> Result<Option<Place>, Cause>
    ensures { Ran (ftp_rows script.now) (outward_row script.now state order.now asked true) leads (D.world stage.old)
        (D.world stage.new) result }
{
    let _ = asked;
    let words = verb_denied(script.line());
    blocked_row(stage, script, state, order.verb(), words.as_slice())
}

fn is_in(account: &Account) -> bool
    ensures { result ≡ is_in account.now }
{
    match account {
        Account::Unopened => false,
        Account::Opened { logged_in, .. } => *logged_in,
    }
}

fn lacks_login(script: &FtpScript, order: &Order, account: &Account) -> bool
    ensures { result ≡ (asks_login script.now.options order.now.verb && not (is_in account.now)) }
{
    asks_login(script.options(), order.verb()) && !is_in(account)
}

fn login_row<D: Stage>(
    stage: &mut D,
    script: &FtpScript,
    state: State,
    order: &Order,
    asked: Outward,
) -> Result<Option<Place>, Cause>
    ensures { Ran (ftp_rows script.now) (outward_row script.now state order.now asked false) leads (D.world stage.old)
        (D.world stage.new) result }
{
    if lacks_login(script, order, &state.account) {
        return unknown_row(stage, script, state, order, asked);
    }
    allowed_row(stage, script, state, order, asked)
}

fn is_denied(script: &FtpScript, order: &Order) -> bool
    ensures { result ≡ has_verb script.now.options.deny order.now.verb }
{
    has_verb(&script.options().deny, order.verb())
}

// A command that is for a server.
fn outward_row<D: Stage>(
    stage: &mut D,
    script: &FtpScript,
    state: State,
    order: &Order,
    asked: Outward,
) -> Result<Option<Place>, Cause>
    ensures { Ran (ftp_rows script.now)
        (outward_row script.now state order.now asked (has_verb script.now.options.deny order.now.verb)) leads
        (D.world stage.old) (D.world stage.new) result }
{
    if is_denied(script, order) {
        return denied_row(stage, script, state, order, asked);
    }
    login_row(stage, script, state, order, asked)
}

fn kind_row<D: Stage>(
    stage: &mut D,
    script: &FtpScript,
    state: State,
    order: &Order,
    kind: Kind,
) -> Result<Option<Place>, Cause>
    ensures { Ran (ftp_rows script.now) (kind_row script.now state order.now kind) leads (D.world stage.old)
        (D.world stage.new) result }
{
    match kind {
        Kind::Authorize => authorize_row(stage, script, state, order.arg()),
        Kind::Response => response_row(stage, script, state, order.arg()),
        Kind::Outward(asked) => outward_row(stage, script, state, order, asked),
    }
}

fn command_row<D: Stage>(
    stage: &mut D,
    script: &FtpScript,
    state: State,
    order: Option<Order>,
) -> Result<Option<Place>, Cause>
    ensures { Ran (ftp_rows script.now) (command_row script.now state order.entry) leads (D.world stage.old)
        (D.world stage.new) result }
{
    match order {
        Some(order) => {
            let kind = kind_of(order.verb().text());
            kind_row(stage, script, state, &order, kind)
        }
        None => tell_row(stage, script, b"500 Syntax error\r\n", state),
    }
}

/// What follows a line of the client.
pub(crate) fn heard_row<D: Stage>(
    stage: &mut D,
    script: &FtpScript,
    state: State,
    heard: Heard,
) -> Result<Option<Place>, Cause>
    ensures ran { Ran (ftp_rows script.now) (heard_row script.now state heard) leads (D.world stage.old)
        (D.world stage.new) result }
    ensures next { IfOk result (IsNext heard) }
{
    match heard {
        Heard::Line(line) => command_row(stage, script, state, Order::read(line.as_slice())),
        Heard::TooLong => command_row(stage, script, state, None),
        Heard::Stopped(_) => Ok(None),
    }
}
