//! A small session: each line of the client is passed to a server, and the server's answer is told.
ghost use Rattle.std.specs.Prelude.{◌≡◌, ◌<◌, ◌≤◌, ◌++◌, ◌∷◌, [], Some, codes, length, IfOk, IfSome};
ghost use Rattle.fw_acts.specs.Acts.Row.{At, Do, Over};
ghost use Rattle.fw_acts.specs.Ran.{Ran};
ghost use Rattle.session_acts.specs.Acts.Act.{Pass, Say, Try};
ghost use Rattle.session_acts.specs.Met.{Acted};
ghost use Rattle.session_acts.specs.Session.{leads};
ghost use Rattle.session_rows.specs.Relay.{IsNext, client_row, distance, first_row, rows, server_row};
ghost use Rattle.session_rows.specs.declared.relay.Place.{Place};
ghost use Rattle.session_rows.specs.declared.relay.Place.TheVariants.{Answering, Waiting};

use arrayvec::ArrayVec;
use fw_outside::Heard;
use fw_types::{Dest, append_byte, copy_of};
use session_acts::{Cause, Form, Script, Stage, tell};

/// Where the session waits.
#[derive(Drop)]
pub(crate) enum Place {
    /// For a line of the client.
    Waiting,
    /// For the server's answer.
    Answering,
}

/// The session, and the destination that it reaches.
#[derive(Drop)]
pub(crate) struct Relay {
    pub(crate) dest: Dest,
}

// A line and its end.
fn ended(line: &[u8]) -> ArrayVec<u8, 513>
    requires { length line.now ≤ 512 }
    ensures { result.items ≡ line.now ++ 10 ∷ [] }
{
    let mut text: ArrayVec<u8, 513> = copy_of(line);
    append_byte(&mut text, 10);
    text
}

// Passes a line on.
#[tactic(auto, using(session_acts::proofs::Acting::acting))]
fn pass_row<D: Stage>(stage: &mut D, line: &[u8]) -> Result<Option<Place>, Cause>
    requires { length line.now ≤ 512 }
    ensures ran { Ran rows (Do (Pass (line.now ++ 10 ∷ [])) (λ passed. At Answering)) leads (D.world stage.old)
        (D.world stage.new) result }
{
    let text = ended(line);
    stage.pass(text.as_slice())?;
    Ok(Some(Place::Answering))
}

// Tells the client a line.
fn line_row<D: Stage>(stage: &mut D, line: &[u8]) -> Result<Option<Place>, Cause>
    requires { length line.now ≤ 512 }
    ensures ran { Ran rows (Do (Say (line.now ++ 10 ∷ [])) (λ done. At Waiting)) leads (D.world stage.old)
        (D.world stage.new) result }
    ensures at { IfOk result (λ next. IfSome next (λ place. place ≡ Waiting)) }
{
    let text = ended(line);
    tell(stage, text.as_slice(), Some(Place::Waiting))
}

fn client_row<D: Stage>(stage: &mut D, heard: Heard) -> Result<Option<Place>, Cause>
    ensures ran { Ran rows (client_row heard) leads (D.world stage.old) (D.world stage.new) result }
    ensures at { IfOk result (IsNext heard) }
{
    match heard {
        Heard::Line(line) => pass_row(stage, line.as_slice()),
        Heard::TooLong => tell(stage, b"too long\n", Some(Place::Waiting)),
        Heard::Stopped(_) => Ok(None),
    }
}

// Tries a farewell.
fn gone_row<D: Stage>(stage: &mut D) -> Result<Option<Place>, Cause>
    ensures ran { Ran rows (Do (Try (codes "gone\n")) (λ tried. Over)) leads (D.world stage.old) (D.world stage.new) result }
    ensures at { IfOk result (λ next. IfSome next (λ place. place ≡ Waiting)) }
{
    stage.attempt(b"gone\n");
    Ok(None)
}

fn server_row<D: Stage>(stage: &mut D, heard: Heard) -> Result<Option<Place>, Cause>
    ensures ran { Ran rows (server_row heard) leads (D.world stage.old) (D.world stage.new) result }
    ensures at { IfOk result (λ next. IfSome next (λ place. place ≡ Waiting)) }
{
    match heard {
        Heard::Line(line) => line_row(stage, line.as_slice()),
        Heard::TooLong => gone_row(stage),
        Heard::Stopped(_) => gone_row(stage),
    }
}

fn client_turn<D: Stage>(stage: &mut D) -> Result<Option<Place>, Cause>
    ensures ran { Ran rows (At Waiting) leads (D.world stage.old) (D.world stage.new) result }
    ensures nearer { IfOk result (λ next. IfSome next (λ p.
        distance p (D.world stage.new) < distance Waiting (D.world stage.old))) }
{
    let heard = stage.hear(Form::Lines)?;
    client_row(stage, heard)
}

fn server_turn<D: Stage>(stage: &mut D) -> Result<Option<Place>, Cause>
    ensures ran { Ran rows (At Answering) leads (D.world stage.old) (D.world stage.new) result }
    ensures nearer { IfOk result (λ next. IfSome next (λ p.
        distance p (D.world stage.new) < distance Answering (D.world stage.old))) }
{
    let heard = stage.take()?;
    server_row(stage, heard)
}

impl Script for Relay {
    type Place = Place;

    ghost rows = { λ relay Origin. rows };

    ghost first = { λ relay Origin. first_row relay.dest };

    ghost holds = { λ relay place. Unit {0} };

    ghost distance = { λ relay Origin place world. distance place world };

    fn begin<D: Stage>(&self, stage: &mut D) -> Result<Option<Place>, Cause> {
        stage.log(b"connect\n")?;
        stage.reach(&self.dest)?;
        Ok(Some(Place::Waiting))
    }

    fn turn<D: Stage>(&self, stage: &mut D, place: Place) -> Result<Option<Place>, Cause> {
        match place {
            Place::Waiting => client_turn(stage),
            Place::Answering => server_turn(stage),
        }
    }
}
