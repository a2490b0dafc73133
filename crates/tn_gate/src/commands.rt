//! The rows of commands.
ghost use Rattle.std.specs.Prelude.{◌≡◌, ◌<◌, ◌≤◌, length, IfOk};
ghost use Rattle.fw_acts.specs.Ran.{Ran};
ghost use Rattle.gate_rules.specs.Verdict.{allows};
ghost use Rattle.session_acts.specs.Session.{leads};
ghost use Rattle.tn_gate.specs.Dialogue.{ask_command, command_row, commanding_row, connect_row, dest_row, dialed_row, line_of_denial, operated_row, operation_row, permitted_row, refuse_row, refusing_line, tn_rows};
ghost use Rattle.tn_gate.specs.Distance.{IsNext};

use crate::command::read_command;
use crate::log_lines::{connect_line, refuse_line};
use crate::texts::{before_command, refusal};
use crate::{Command, Place, TnScript};
use auth_events::{Denial, OpService, Reply, Request};
use fw_outside::Heard;
use fw_types::Dest;
use gate_rules::{Options, destination};
use host_pattern::Steps;
use session_acts::{Cause, Stage, tell};
use std::marker::Brand;
use std::sync::ledger::{Blank, Ledger};

// Tells words and asks for a command.
pub(crate) fn ask_command<D: Stage>(
    stage: &mut D,
    script: &TnScript,
    words: &[u8],
) -> Result<Option<Place>, Cause>
    requires { length words.now ≤ 32 }
    ensures { Ran (tn_rows script.now) (ask_command words.now) leads (D.world stage.old) (D.world stage.new) result }
{
    let _ = script.line;
    let text = before_command(words);
    tell(stage, text.as_slice(), Some(Place::Commanding))
}

// Logs that a destination is denied by the line with this number, and then tells so.
#[tactic(auto, using(session_acts::proofs::Acting::acting))]
fn refuse_row<D: Stage>(
    stage: &mut D,
    script: &TnScript,
    dest: &Dest,
    number: u32,
) -> Result<Option<Place>, Cause>
    ensures { Ran (tn_rows script.now) (refuse_row script.now dest.now number) leads (D.world stage.old)
        (D.world stage.new) result }
{
    let line = refuse_line(script, dest, number);
    stage.log(line.as_slice())?;
    let words = refusal(number);
    ask_command(stage, script, words.as_slice())
}

// Tells whether the link came up, behind which the dialogue is over.
fn dialed_row<D: Stage>(stage: &mut D, script: &TnScript, up: bool) -> Result<Option<Place>, Cause>
    ensures { Ran (tn_rows script.now) (dialed_row up) leads (D.world stage.old) (D.world stage.new) result }
{
    if up {
        return tell(stage, b"Connected\r\n", None);
    }
    ask_command(stage, script, b"No route\r\n")
}

// Logs that the client is linked to a destination, and asks for it.
#[tactic(auto, using(session_acts::proofs::Acting::acting))]
fn connect_row<D: Stage>(
    stage: &mut D,
    script: &TnScript,
    dest: &Dest,
) -> Result<Option<Place>, Cause>
    ensures { Ran (tn_rows script.now) (connect_row script.now dest.now) leads (D.world stage.old)
        (D.world stage.new) result }
{
    let line = connect_line(script, dest);
    stage.log(line.as_slice())?;
    let up = stage.dial(dest);
    dialed_row(stage, script, up)
}

fn line_of_denial(line: u32, denial: &Denial) -> u32
    ensures { result ≡ line_of_denial line denial.now }
{
    match denial {
        Denial::NoRule { line: number } => *number,
        Denial::Unknown
        | Denial::Wrong
        | Denial::Disabled
        | Denial::Expired { .. }
        | Denial::Sleeping { .. }
        | Denial::Busy { .. }
        | Denial::Exhausted
        | Denial::NoChallenge
        | Denial::NotIn
        | Denial::NotWizard
        | Denial::Exists
        | Denial::NoSuch
        | Denial::Full { .. }
        | Denial::Closed
        | Denial::NotKept => line,
    }
}

// The number of the line that denies an operation, or that of the permission line.
fn refusing_line(line: u32, reply: &Reply) -> u32
    ensures { result ≡ refusing_line line reply.now }
{
    match reply {
        Reply::Denied(denial) => line_of_denial(line, denial),
        Reply::Opened { .. }
        | Reply::Password
        | Reply::Challenge { .. }
        | Reply::Ok
        | Reply::Shown(_) => line,
    }
}

// Refuses a destination that no operation is permitted to.
fn unpermitted_row<D: Stage>(
    stage: &mut D,
    script: &TnScript,
    dest: &Dest,
    reply: &Reply,
) -> Result<Option<Place>, Cause>
    ensures { Ran (tn_rows script.now) (refuse_row script.now dest.now (refusing_line script.now.line reply.now)) leads
        (D.world stage.old) (D.world stage.new) result }
{
    let number = refusing_line(script.line(), reply);
    refuse_row(stage, script, dest, number)
}

// Goes on to a destination where permission for it was given.
fn operated_row<D: Stage>(
    stage: &mut D,
    script: &TnScript,
    dest: &Dest,
    reply: &Reply,
) -> Result<Option<Place>, Cause>
    ensures { Ran (tn_rows script.now) (operated_row script.now dest.now reply.now) leads (D.world stage.old)
        (D.world stage.new) result }
{
    match reply {
        Reply::Ok => connect_row(stage, script, dest),
        Reply::Denied(_) => unpermitted_row(stage, script, dest, reply),
        Reply::Opened { .. } => unpermitted_row(stage, script, dest, reply),
        Reply::Password => unpermitted_row(stage, script, dest, reply),
        Reply::Challenge { .. } => unpermitted_row(stage, script, dest, reply),
        Reply::Shown(_) => unpermitted_row(stage, script, dest, reply),
    }
}

// Asks for permission to reach a destination.
#[tactic(auto, using(session_acts::proofs::Acting::acting))]
fn operation_row<D: Stage>(
    stage: &mut D,
    script: &TnScript,
    dest: &Dest,
) -> Result<Option<Place>, Cause>
    ensures { Ran (tn_rows script.now) (operation_row script.now dest.now) leads (D.world stage.old)
        (D.world stage.new) result }
{
    let request = Request::Operation {
        service: OpService::Telnet,
        host: dest.host.twin(),
    };
    let reply = stage.ask(request)?;
    operated_row(stage, script, dest, &reply)
}

// A destination that the permission line lets pass.
fn permitted_row<D: Stage>(
    stage: &mut D,
    script: &TnScript,
    dest: &Dest,
) -> Result<Option<Place>, Cause>
    ensures { Ran (tn_rows script.now) (permitted_row script.now.options.extnd script.now dest.now) leads
        (D.world stage.old) (D.world stage.new) result }
{
    if script.extnd() {
        return operation_row(stage, script, dest);
    }
    connect_row(stage, script, dest)
}

fn allows_in<L: Ledger>(blank: Blank, options: &Options, dest: &Dest) -> bool
    requires name { blank.name ≡ L.name }
    requires parts { blank.parts ≡ L.parts }
    requires some { 0 < blank.parts }
    ensures { result ≡ allows options.now dest.now }
{
    destination(options, dest, &mut Steps::<L>::new(blank))
}

// Whether the permission line lets a destination pass, in steps that nobody counts.
fn is_allowed(script: &TnScript, dest: &Dest) -> bool
    ensures { result ≡ allows script.now.options dest.now }
{
    allows_in::<Brand>(Blank::new(1), script.options, dest)
}

fn dest_row<D: Stage>(stage: &mut D, script: &TnScript, dest: &Dest) -> Result<Option<Place>, Cause>
    ensures { Ran (tn_rows script.now) (dest_row (allows script.now.options dest.now) script.now dest.now) leads
        (D.world stage.old) (D.world stage.new) result }
{
    if is_allowed(script, dest) {
        return permitted_row(stage, script, dest);
    }
    refuse_row(stage, script, dest, script.line())
}

// Does what a command asks for.
fn command_row<D: Stage>(
    stage: &mut D,
    script: &TnScript,
    command: Command,
) -> Result<Option<Place>, Cause>
    ensures { Ran (tn_rows script.now) (command_row script.now command) leads (D.world stage.old)
        (D.world stage.new) result }
{
    match command {
        Command::Nothing => ask_command(stage, script, b""),
        Command::Connect(dest) => dest_row(stage, script, &dest),
        Command::Quit => tell(stage, b"Goodbye\r\n", None),
        Command::Help => ask_command(stage, script, b"connect HOST [PORT], quit\r\n"),
        Command::Unknown => ask_command(stage, script, b"Unknown command\r\n"),
    }
}

/// What follows a line where a command is waited for.
pub(crate) fn commanding_row<D: Stage>(
    stage: &mut D,
    script: &TnScript,
    heard: Heard,
) -> Result<Option<Place>, Cause>
    ensures ran { Ran (tn_rows script.now) (commanding_row script.now heard) leads (D.world stage.old)
        (D.world stage.new) result }
    ensures next { IfOk result (IsNext heard) }
{
    match heard {
        Heard::Line(line) => command_row(stage, script, read_command(line.as_slice())),
        Heard::TooLong => command_row(stage, script, Command::Unknown),
        Heard::Stopped(_) => Ok(None),
    }
}
