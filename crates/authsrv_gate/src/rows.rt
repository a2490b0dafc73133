//! The rows of the dialogue.
ghost use Rattle.std.specs.Prelude.{◌≡◌, ◌≤◌, ◌++◌, ◌∷◌, [], false, length, Some, None, codes, IfOk, IfSome, IsTrue};
ghost use Rattle.fw_acts.specs.Acts.Row.{At, Do, Over};
ghost use Rattle.fw_acts.specs.Ran.{Ran};
ghost use Rattle.fw_types.specs.Name.{is_name};
ghost use Rattle.authsrv_lines.specs.Fault.{wire_fault_text};
ghost use Rattle.authsrv_lines.specs.Reply.{reply_line};
ghost use Rattle.authsrv_lines.specs.Request.{request_of};
ghost use Rattle.authsrv_gate.specs.Dialogue.{ask_row, heard_row, is_no_such, line_row, listed_by, listed_row, opened_place, opened_row, password_row, quit_row, rows, say, session_row, shown_name};
ghost use Rattle.authsrv_gate.specs.Distance.{IsFresh, IsNext, IsPlace, listed_place};
ghost use Rattle.authsrv_gate.specs.declared.place.Place.TheVariants.{Waiting};
ghost use Rattle.session_acts.specs.Acts.Act.{Ask};
ghost use Rattle.session_acts.specs.Met.{is_password};
ghost use Rattle.session_acts.specs.Session.{leads};

use crate::Place;
use arrayvec::ArrayVec;
use auth_events::{Denial, Reply, Request};
use authsrv_lines::{Wire, WireFault, read_request, reply_text};
use fw_outside::Heard;
use fw_types::{Name, append_byte, copy_of};
use session_acts::{Cause, Stage, tell};

// A line and its end.
fn ended(line: &[u8]) -> ArrayVec<u8, 513>
    requires { length line.now ≤ 512 }
    ensures { result.items ≡ line.now ++ 10 ∷ [] }
{
    let mut text: ArrayVec<u8, 513> = copy_of(line);
    append_byte(&mut text, 10);
    text
}

// Gives the client a line, and comes to a place, or to the end.
fn tell_line<D: Stage>(
    stage: &mut D,
    line: &[u8],
    place: Option<Place>,
) -> Result<Option<Place>, Cause>
    requires { length line.now ≤ 512 }
    ensures ran { Ran rows (say line.now (leads place)) leads (D.world stage.old) (D.world stage.new) result }
    ensures at { IfOk result (λ next. next ≡ place) }
{
    let text = ended(line);
    tell(stage, text.as_slice(), place)
}

// Gives the client a reply, and comes to a place, or to the end.
fn tell_reply<D: Stage>(
    stage: &mut D,
    reply: &Reply,
    place: Option<Place>,
) -> Result<Option<Place>, Cause>
    ensures ran { Ran rows (say (reply_line reply.now) (leads place)) leads (D.world stage.old) (D.world stage.new)
        result }
    ensures at { IfOk result (λ next. next ≡ place) }
{
    let mut text = ArrayVec::new();
    reply_text(reply, &mut text);
    tell_line(stage, text.as_slice(), place)
}

// Asks, and tells the client the reply.
#[tactic(auto, using(session_acts::proofs::Acting::acting))]
fn ask_row<D: Stage>(stage: &mut D, request: Request) -> Result<Option<Place>, Cause>
    requires { is_password request ≡ false }
    ensures ran { Ran rows (ask_row request) leads (D.world stage.old) (D.world stage.new) result }
    ensures at { IfOk result (λ next. next ≡ Some Waiting) }
{
    let reply = stage.ask(request)?;
    tell_reply(stage, &reply, Some(Place::Waiting))
}

// Asks for a new password, with a salt of the dice, and tells the client the reply.
#[tactic(auto, using(session_acts::proofs::Acting::acting))]
fn password_row<D: Stage>(stage: &mut D, name: Name, hash: [u8; 16]) -> Result<Option<Place>, Cause>
    ensures ran { Ran rows (password_row name hash) leads (D.world stage.old) (D.world stage.new) result }
    ensures at { IfOk result (λ next. next ≡ Some Waiting) }
{
    let salted = stage.renew(name, hash)?;
    tell_reply(stage, &salted.1, Some(Place::Waiting))
}

// Asks for the session's end, and tells the client the reply.
#[tactic(auto, using(session_acts::proofs::Acting::acting))]
fn quit_row<D: Stage>(stage: &mut D) -> Result<Option<Place>, Cause>
    ensures ran { Ran rows quit_row leads (D.world stage.old) (D.world stage.new) result }
    ensures at { IfOk result (λ next. next ≡ None) }
{
    let reply = stage.ask(Request::Close)?;
    tell_reply(stage, &reply, None)
}

// Tells the client why a line asks for nothing.
fn fault_row<D: Stage>(stage: &mut D, fault: WireFault) -> Result<Option<Place>, Cause>
    ensures ran { Ran rows (say (wire_fault_text fault) (At Waiting)) leads (D.world stage.old) (D.world stage.new)
        result }
    ensures at { IfOk result (λ next. next ≡ Some Waiting) }
{
    tell_line(stage, fault.text(), Some(Place::Waiting))
}

// Does what a line asks for.
fn line_row<D: Stage>(stage: &mut D, line: &[u8]) -> Result<Option<Place>, Cause>
    ensures ran { Ran rows (line_row (request_of line.now)) leads (D.world stage.old) (D.world stage.new) result }
    ensures at { IfOk result IsFresh }
{
    match read_request(line) {
        Err(fault) => fault_row(stage, fault),
        Ok(Wire::Ask(request)) => ask_row(stage, request),
        Ok(Wire::Password { name, hash }) => password_row(stage, name, hash),
        Ok(Wire::List) => Ok(Some(Place::Listing(None))),
        Ok(Wire::Quit) => quit_row(stage),
    }
}

// Asks for the session's end at the end of what the client says, who is told nothing.
#[tactic(auto, using(session_acts::proofs::Acting::acting))]
fn end_row<D: Stage>(stage: &mut D) -> Result<Option<Place>, Cause>
    ensures ran { Ran rows (Do (Ask Request.Close) (λ reply. Over)) leads (D.world stage.old) (D.world stage.new) result }
    ensures at { IfOk result (λ next. next ≡ None) }
{
    stage.ask(Request::Close)?;
    Ok(None)
}

// Does what was heard asks for.
pub(crate) fn heard_row<D: Stage>(stage: &mut D, heard: Heard) -> Result<Option<Place>, Cause>
    ensures ran { Ran rows (heard_row heard) leads (D.world stage.old) (D.world stage.new) result }
    ensures at { IfOk result (IsNext heard) }
{
    match heard {
        Heard::Line(line) => line_row(stage, line.as_slice()),
        Heard::TooLong => fault_row(stage, WireFault::LongLine),
        Heard::Stopped(_) => end_row(stage),
    }
}

fn is_no_such(reply: &Reply) -> bool
    ensures { result ≡ is_no_such reply.now }
{
    match reply {
        Reply::Denied(denial) => matches!(denial, Denial::NoSuch),
        Reply::Opened { .. }
        | Reply::Password
        | Reply::Challenge { .. }
        | Reply::Ok
        | Reply::Shown(_) => false,
    }
}

// The same name, of whose form the caller learns.
fn checked(name: Name) -> Name
    ensures is { result ≡ name }
    ensures form { IsTrue (is_name name) }
{
    let _ = name.text();
    name
}

fn shown_name(reply: &Reply) -> Option<Name>
    ensures is { result ≡ shown_name reply.now }
    ensures form { IfSome result (λ name. IsTrue (is_name name)) }
{
    match reply {
        Reply::Shown(summary) => Some(checked(summary.name.twin())),
        Reply::Opened { .. }
        | Reply::Password
        | Reply::Challenge { .. }
        | Reply::Ok
        | Reply::Denied(_) => None,
    }
}

// Ends a list, with `ok` or with another denial.
fn list_end<D: Stage>(stage: &mut D, reply: &Reply) -> Result<Option<Place>, Cause>
    ensures ran { Ran rows (listed_by None reply.now) leads (D.world stage.old) (D.world stage.new) result }
    ensures at { IfOk result (λ next. next ≡ Some Waiting) }
{
    if is_no_such(reply) {
        return tell_line(stage, b"ok", Some(Place::Waiting));
    }
    tell_reply(stage, reply, Some(Place::Waiting))
}

// Tells the client of a record, or ends the list.
pub(crate) fn listed_row<D: Stage>(stage: &mut D, reply: &Reply) -> Result<Option<Place>, Cause>
    ensures ran { Ran rows (listed_row reply.now) leads (D.world stage.old) (D.world stage.new) result }
    ensures at { IfOk result (λ next. next ≡ Some (listed_place reply.now)) }
    ensures form { IfOk result (λ next. IfSome next IsPlace) }
{
    match shown_name(reply) {
        Some(name) => tell_reply(stage, reply, Some(Place::Listing(Some(name)))),
        None => list_end(stage, reply),
    }
}

fn opened_place(reply: &Reply) -> Option<Place>
    ensures is { result ≡ opened_place reply.now }
    ensures fresh { IsFresh result }
{
    match reply {
        Reply::Opened { .. } => Some(Place::Waiting),
        Reply::Password
        | Reply::Challenge { .. }
        | Reply::Ok
        | Reply::Shown(_)
        | Reply::Denied(_) => None,
    }
}

// Opens the session.
#[tactic(auto, using(session_acts::proofs::Acting::acting))]
pub(crate) fn session_row<D: Stage>(stage: &mut D, console: bool) -> Result<Option<Place>, Cause>
    ensures ran { Ran rows (session_row console) leads (D.world stage.old) (D.world stage.new) result }
    ensures at { IfOk result IsFresh }
{
    let reply = stage.ask(Request::Open { console })?;
    let place = opened_place(&reply);
    tell_reply(stage, &reply, place)
}
