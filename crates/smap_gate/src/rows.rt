//! The rows of commands.
ghost use Rattle.std.specs.Prelude.{◌≡◌, ◌<◌, ◌++◌, ◌∷◌, [], nat_lt, length, option_map, Ok, Err, IfOk, IfSome};
ghost use Rattle.fw_acts.specs.Ran.{Ran};
ghost use Rattle.session_acts.specs.Session.{leads};
ghost use Rattle.slot_bytes.specs.Layout.{IsTextFrom};
ghost use Rattle.smap_gate.specs.Dialogue.{command_row, fault_text, heard_row, helo_row, mail_row, rcpt_row, recipient_row, sender_row, smap_rows, tell};
ghost use Rattle.smap_gate.specs.Draft.{IsDraft, IsNext, IsPlace};
ghost use Rattle.smap_gate.specs.declared.place.Place.TheVariants.{Mailing, Waiting};
ghost use Rattle.smap_lines.specs.Command.{mail_command_of, seen};

use crate::mail::data_row;
use crate::paths::{longer, path_behind};
use crate::{Place, SmapScript};
use fw_outside::Heard;
use fw_types::OctetsList;
use session_acts::{Cause, Stage, tell};
use smap_lines::{MailCommand, Path, PathFault, read_mail_command};

/// Tells words, and waits at a place.
pub(crate) fn tell_at<D: Stage>(
    stage: &mut D,
    script: &SmapScript,
    text: &[u8],
    place: Place,
) -> Result<Option<Place>, Cause>
    requires { IsPlace script.now place }
    ensures ran { Ran (smap_rows script.now) (tell text.now place) leads (D.world stage.old) (D.world stage.new) result }
    ensures form { IfOk result (λ next. IfSome next (IsPlace script.now)) }
{
    let _ = script.peer();
    tell(stage, text, Some(place))
}

// Tells why a text is no path.
fn fault_row<D: Stage>(
    stage: &mut D,
    script: &SmapScript,
    fault: PathFault,
    place: Place,
) -> Result<Option<Place>, Cause>
    requires { IsPlace script.now place }
    ensures ran { Ran (smap_rows script.now) (tell (fault_text fault) place) leads (D.world stage.old)
        (D.world stage.new) result }
    ensures form { IfOk result (λ next. IfSome next (IsPlace script.now)) }
{
    match fault {
        PathFault::Syntax => tell_at(stage, script, b"501 Syntax error\r\n", place),
        PathFault::NotAllowed => tell_at(stage, script, b"553 Path not allowed\r\n", place),
    }
}

// A greeting, which needs a word.
fn helo_row<D: Stage>(
    stage: &mut D,
    script: &SmapScript,
    place: Place,
    rest: &[u8],
) -> Result<Option<Place>, Cause>
    requires { IsPlace script.now place }
    ensures ran { Ran (smap_rows script.now) (helo_row place rest.now) leads (D.world stage.old) (D.world stage.new)
        result }
    ensures form { IfOk result (λ next. IfSome next (IsPlace script.now)) }
{
    if rest.is_empty() {
        return tell_at(stage, script, b"501 Syntax error\r\n", place);
    }
    tell_at(stage, script, b"250 smap\r\n", Place::Waiting)
}

// A sender, where none stands.
fn sender_row<D: Stage>(
    stage: &mut D,
    script: &SmapScript,
    path: Result<Path, PathFault>,
) -> Result<Option<Place>, Cause>
    requires { IfOk path (IsTextFrom 0 256) }
    ensures ran { Ran (smap_rows script.now) (sender_row path) leads (D.world stage.old) (D.world stage.new) result }
    ensures form { IfOk result (λ next. IfSome next (IsPlace script.now)) }
{
    match path {
        Ok(sender) => {
            let rcpts = OctetsList::new(script.alloc());
            tell_at(
                stage,
                script,
                b"250 Ok\r\n",
                Place::Mailing { sender, rcpts },
            )
        }
        Err(fault) => fault_row(stage, script, fault, Place::Waiting),
    }
}

fn mail_row<D: Stage>(
    stage: &mut D,
    script: &SmapScript,
    place: Place,
    path_text: Option<&[u8]>,
) -> Result<Option<Place>, Cause>
    requires { IsPlace script.now place }
    ensures ran { Ran (smap_rows script.now) (mail_row place (option_map (λ text. text.now) path_text.entry)) leads
        (D.world stage.old) (D.world stage.new) result }
    ensures form { IfOk result (λ next. IfSome next (IsPlace script.now)) }
{
    match place {
        Place::Waiting => sender_row(stage, script, path_behind(path_text, true)),
        Place::Mailing { sender, rcpts } => tell_at(
            stage,
            script,
            b"503 Bad sequence\r\n",
            Place::Mailing { sender, rcpts },
        ),
    }
}

// One recipient more, for which memory is taken.
fn one_more_row<D: Stage>(
    stage: &mut D,
    script: &SmapScript,
    sender: Path,
    rcpts: OctetsList,
    path: &Path,
) -> Result<Option<Place>, Cause>
    requires draft { IsDraft script.now sender rcpts }
    requires room { length rcpts < script.now.most_rcpts }
    requires fits { IsTextFrom 1 256 path.now }
    ensures ran { Ran (smap_rows script.now) (recipient_row sender rcpts (Ok path.now)) leads (D.world stage.old)
        (D.world stage.new) result }
    ensures form { IfOk result (λ next. IfSome next (IsPlace script.now)) }
{
    let (rcpts, had) = longer(script.alloc(), rcpts, path);
    stage.allot(!had)?;
    tell_at(
        stage,
        script,
        b"250 Ok\r\n",
        Place::Mailing { sender, rcpts },
    )
}

fn recipient_row<D: Stage>(
    stage: &mut D,
    script: &SmapScript,
    sender: Path,
    rcpts: OctetsList,
    path: Result<Path, PathFault>,
) -> Result<Option<Place>, Cause>
    requires draft { IsDraft script.now sender rcpts }
    requires room { length rcpts < script.now.most_rcpts }
    requires fits { IfOk path (IsTextFrom 1 256) }
    ensures ran { Ran (smap_rows script.now) (recipient_row sender rcpts path) leads (D.world stage.old)
        (D.world stage.new) result }
    ensures form { IfOk result (λ next. IfSome next (IsPlace script.now)) }
{
    match path {
        Ok(path) => one_more_row(stage, script, sender, rcpts, &path),
        Err(fault) => fault_row(stage, script, fault, Place::Mailing { sender, rcpts }),
    }
}

// Whether one recipient more is taken.
fn has_room(script: &SmapScript, rcpts: &OctetsList) -> bool
    ensures { result ≡ nat_lt (length rcpts.now) script.now.most_rcpts }
{
    (rcpts.len() as u64) < u64::from(script.most_rcpts())
}

fn rcpt_row<D: Stage>(
    stage: &mut D,
    script: &SmapScript,
    place: Place,
    path_text: Option<&[u8]>,
) -> Result<Option<Place>, Cause>
    requires { IsPlace script.now place }
    ensures ran { Ran (smap_rows script.now) (rcpt_row script.now place (option_map (λ text. text.now) path_text.entry)) leads
        (D.world stage.old) (D.world stage.new) result }
    ensures form { IfOk result (λ next. IfSome next (IsPlace script.now)) }
{
    match place {
        Place::Waiting => tell_at(stage, script, b"503 Bad sequence\r\n", Place::Waiting),
        Place::Mailing { sender, rcpts } => { further_row(stage, script, sender, rcpts, path_text) }
    }
}

// A recipient, where a sender stands.
fn further_row<D: Stage>(
    stage: &mut D,
    script: &SmapScript,
    sender: Path,
    rcpts: OctetsList,
    path_text: Option<&[u8]>,
) -> Result<Option<Place>, Cause>
    requires { IsDraft script.now sender rcpts }
    ensures ran { Ran (smap_rows script.now) (rcpt_row script.now (Mailing sender rcpts)
        (option_map (λ text. text.now) path_text.entry)) leads (D.world stage.old) (D.world stage.new) result }
    ensures form { IfOk result (λ next. IfSome next (IsPlace script.now)) }
{
    if has_room(script, &rcpts) {
        return recipient_row(stage, script, sender, rcpts, path_behind(path_text, false));
    }
    tell_at(
        stage,
        script,
        b"552 Too many recipients\r\n",
        Place::Mailing { sender, rcpts },
    )
}

// Does what a command asks for.
fn command_row<D: Stage>(
    stage: &mut D,
    script: &SmapScript,
    place: Place,
    command: MailCommand,
) -> Result<Option<Place>, Cause>
    requires { IsPlace script.now place }
    ensures ran { Ran (smap_rows script.now) (command_row script.now place (seen command.entry)) leads (D.world stage.old)
        (D.world stage.new) result }
    ensures form { IfOk result (λ next. IfSome next (IsPlace script.now)) }
{
    match command {
        MailCommand::Helo { rest } => helo_row(stage, script, place, rest),
        MailCommand::Mail { path_text } => mail_row(stage, script, place, path_text),
        MailCommand::Rcpt { path_text } => rcpt_row(stage, script, place, path_text),
        MailCommand::Data => data_row(stage, script, place),
        MailCommand::Rset => tell_at(stage, script, b"250 Ok\r\n", Place::Waiting),
        MailCommand::Noop => tell_at(stage, script, b"250 Ok\r\n", place),
        MailCommand::Quit => tell(stage, b"221 Goodbye\r\n", None),
        MailCommand::Help => tell_at(
            stage,
            script,
            b"214 HELO MAIL RCPT DATA RSET NOOP QUIT\r\n",
            place,
        ),
        MailCommand::NotImplemented => { tell_at(stage, script, b"502 Not implemented\r\n", place) }
        MailCommand::Unknown => tell_at(stage, script, b"500 Syntax error\r\n", place),
    }
}

/// What follows a line of the client.
pub(crate) fn heard_row<D: Stage>(
    stage: &mut D,
    script: &SmapScript,
    place: Place,
    heard: Heard,
) -> Result<Option<Place>, Cause>
    requires { IsPlace script.now place }
    ensures ran { Ran (smap_rows script.now) (heard_row script.now place heard) leads (D.world stage.old)
        (D.world stage.new) result }
    ensures form { IfOk result (λ next. IfSome next (IsPlace script.now)) }
    ensures next { IfOk result (IsNext heard) }
{
    match heard {
        Heard::Line(line) => {
            command_row(stage, script, place, read_mail_command(line.as_slice()))
        }
        Heard::TooLong => tell_at(stage, script, b"500 Syntax error\r\n", place),
        Heard::Stopped(_) => Ok(None),
    }
}
