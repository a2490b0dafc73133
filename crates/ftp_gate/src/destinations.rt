//! The rows of `USER`: a server is asked for, or a user named to one.
ghost use Rattle.std.specs.Prelude.{◌≡◌, ◌<◌, ◌≤◌, length, Some, None, true};
ghost use Rattle.ftp_gate.specs.Dialogue.{again_row, connect_row, dest_row, ftp_rows, line_of_denial, operated_row, pass_user_row, permitted_row, refuse_row, refusing_line, user_row, wanted_row};
ghost use Rattle.ftp_gate.specs.User.{name_there, user_of};
ghost use Rattle.fw_acts.specs.Ran.{Ran};
ghost use Rattle.gate_rules.specs.Verdict.{allows};
ghost use Rattle.session_acts.specs.Session.{leads};

use crate::greeting::connect_row;
use crate::log_lines::refuse_line;
use crate::login::tell_row;
use crate::passing::pass_user_row;
use crate::texts::dest_denied;
use crate::user::{name_there, read_user};
use crate::{FtpScript, Place, State};
use auth_events::{Denial, OpService, Reply, Request};
use fw_types::Dest;
use gate_rules::{Options, destination};
use host_pattern::Steps;
use session_acts::{Cause, Stage};
use std::marker::Brand;
use std::sync::ledger::{Blank, Ledger};

// Logs that a destination is denied by the line with this number, and then tells so.
#[tactic(auto, using(session_acts::proofs::Acting::acting))]
fn refuse_row<D: Stage>(
    stage: &mut D,
    script: &FtpScript,
    state: State,
    dest: &Dest,
    number: u32,
) -> Result<Option<Place>, Cause>
    ensures { Ran (ftp_rows script.now) (refuse_row script.now state dest.now number) leads (D.world stage.old)
        (D.world stage.new) result }
{
    let line = refuse_line(script, dest, number);
    stage.log(line.as_slice())?;
    let words = dest_denied(number);
    tell_row(stage, script, words.as_slice(), state)
}

fn line_of_denial(line: u32, denial: &Denial) -> u32
    ensures { result ≡ line_of_denial line denial.now }
{
    match denial {
        Denial::NoRule { line: number } => *number,
        Denial::Unknown
        | Denial::Wrong
        | Denial::Disabled
        | Denial::Expired { .. }
        | Denial::Sleeping { .. }
        | Denial::Busy { .. }
        | Denial::Exhausted
        | Denial::NoChallenge
        | Denial::NotIn
        | Denial::NotWizard
        | Denial::Exists
        | Denial::NoSuch
        | Denial::Full { .. }
        | Denial::Closed
        | Denial::NotKept => line,
    }
}

// The number of the line that denies an operation, or that of the permission line.
fn refusing_line(line: u32, reply: &Reply) -> u32
    ensures { result ≡ refusing_line line reply.now }
{
    match reply {
        Reply::Denied(denial) => line_of_denial(line, denial),
        Reply::Opened { .. }
        | Reply::Password
        | Reply::Challenge { .. }
        | Reply::Ok
        | Reply::Shown(_) => line,
    }
}

// Refuses a destination that no operation is permitted to.
fn unpermitted_row<D: Stage>(
    stage: &mut D,
    script: &FtpScript,
    state: State,
    dest: &Dest,
    reply: &Reply,
) -> Result<Option<Place>, Cause>
    ensures { Ran (ftp_rows script.now)
        (refuse_row script.now state dest.now (refusing_line script.now.line reply.now)) leads (D.world stage.old)
        (D.world stage.new) result }
{
    let number = refusing_line(script.line(), reply);
    refuse_row(stage, script, state, dest, number)
}

// Goes on to a destination where permission for it was given.
fn operated_row<D: Stage>(
    stage: &mut D,
    script: &FtpScript,
    state: State,
    name: &[u8],
    dest: Dest,
    reply: &Reply,
) -> Result<Option<Place>, Cause>
    requires { length name.now ≤ 512 }
    ensures { Ran (ftp_rows script.now) (operated_row script.now state name.now dest reply.now) leads
        (D.world stage.old) (D.world stage.new) result }
{
    match reply {
        Reply::Ok => connect_row(stage, script, state, name, dest),
        Reply::Denied(_) => unpermitted_row(stage, script, state, &dest, reply),
        Reply::Opened { .. } => unpermitted_row(stage, script, state, &dest, reply),
        Reply::Password => unpermitted_row(stage, script, state, &dest, reply),
        Reply::Challenge { .. } => unpermitted_row(stage, script, state, &dest, reply),
        Reply::Shown(_) => unpermitted_row(stage, script, state, &dest, reply),
    }
}

// Asks for permission to reach a destination.
#[tactic(auto, using(session_acts::proofs::Acting::acting))]
fn operation_row<D: Stage>(
    stage: &mut D,
    script: &FtpScript,
    state: State,
    name: &[u8],
    dest: Dest,
) -> Result<Option<Place>, Cause>
    requires { length name.now ≤ 512 }
    ensures { Ran (ftp_rows script.now) (permitted_row true script.now state name.now dest) leads (D.world stage.old)
        (D.world stage.new) result }
{
    let request = Request::Operation {
        service: OpService::Ftp,
        host: dest.host.twin(),
    };
    let reply = stage.ask(request)?;
    operated_row(stage, script, state, name, dest, &reply)
}

// A destination that the permission line lets pass.
fn permitted_row<D: Stage>(
    stage: &mut D,
    script: &FtpScript,
    state: State,
    name: &[u8],
    dest: Dest,
) -> Result<Option<Place>, Cause>
    requires { length name.now ≤ 512 }
    ensures { Ran (ftp_rows script.now) (permitted_row script.now.options.extnd script.now state name.now dest) leads
        (D.world stage.old) (D.world stage.new) result }
{
    if script.extnd() {
        return operation_row(stage, script, state, name, dest);
    }
    connect_row(stage, script, state, name, dest)
}

fn allows_in<L: Ledger>(blank: Blank, options: &Options, dest: &Dest) -> bool
    requires name { blank.name ≡ L.name }
    requires parts { blank.parts ≡ L.parts }
    requires some { 0 < blank.parts }
    ensures { result ≡ allows options.now dest.now }
{
    destination(options, dest, &mut Steps::<L>::new(blank))
}

// Whether the permission line lets a destination pass, in steps that nobody counts.
fn is_allowed(script: &FtpScript, dest: &Dest) -> bool
    ensures { result ≡ allows script.now.options dest.now }
{
    allows_in::<Brand>(Blank::new(1), script.options(), dest)
}

fn dest_row<D: Stage>(
    stage: &mut D,
    script: &FtpScript,
    state: State,
    name: &[u8],
    dest: Dest,
) -> Result<Option<Place>, Cause>
    requires { length name.now ≤ 512 }
    ensures { Ran (ftp_rows script.now) (dest_row (allows script.now.options dest) script.now state name.now dest)
        leads (D.world stage.old) (D.world stage.new) result }
{
    if is_allowed(script, &dest) {
        return permitted_row(stage, script, state, name, dest);
    }
    refuse_row(stage, script, state, &dest, script.line())
}

// Asks for the server that is named, where no link is up.
fn wanted_row<D: Stage>(
    stage: &mut D,
    script: &FtpScript,
    state: State,
    arg: &[u8],
) -> Result<Option<Place>, Cause>
    requires { length arg.now ≤ 512 }
    ensures { Ran (ftp_rows script.now) (wanted_row script.now state (user_of arg.now)) leads (D.world stage.old)
        (D.world stage.new) result }
{
    match read_user(arg) {
        Some(user) => dest_row(stage, script, state, user.name, user.dest),
        None => tell_row(stage, script, b"501 USER name@host\r\n", state),
    }
}

// Names a user to the server, to which a link is up, where that is the destination.
fn again_row<D: Stage>(
    stage: &mut D,
    script: &FtpScript,
    state: State,
    dest: &Dest,
    arg: &[u8],
) -> Result<Option<Place>, Cause>
    requires { length arg.now ≤ 512 }
    ensures { Ran (ftp_rows script.now) (again_row script.now state (name_there dest.now arg.now)) leads
        (D.world stage.old) (D.world stage.new) result }
{
    match name_there(dest, arg) {
        Some(name) => pass_user_row(stage, script, state, name),
        None => tell_row(stage, script, b"503 Already connected\r\n", state),
    }
}

/// What follows `USER`.
pub(crate) fn user_row<D: Stage>(
    stage: &mut D,
    script: &FtpScript,
    state: State,
    arg: &[u8],
) -> Result<Option<Place>, Cause>
    requires { length arg.now ≤ 512 }
    ensures { Ran (ftp_rows script.now) (user_row script.now state state.dest arg.now) leads (D.world stage.old)
        (D.world stage.new) result }
{
    match &state.dest {
        Some(dest) => {
            let dest = dest.twin();
            again_row(stage, script, state, &dest, arg)
        }
        None => wanted_row(stage, script, state, arg),
    }
}
