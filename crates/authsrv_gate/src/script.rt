//! The session as a script.
ghost use Rattle.std.specs.Prelude.{◌≡◌, ◌<◌, Some, IfOk, IfSome};
ghost use Rattle.fw_acts.specs.Acts.Row.{At};
ghost use Rattle.fw_acts.specs.Ran.{Ran};
ghost use Rattle.authsrv_gate.specs.Dialogue.{rows, session_row};
ghost use Rattle.authsrv_gate.specs.Distance.{IsPlace, distance};
ghost use Rattle.session_acts.specs.Session.{leads};

use crate::Place;
use crate::rows::{heard_row, listed_row, session_row};
use auth_events::Request;
use fw_types::Name;
use session_acts::{Cause, Form, Script, Stage};

/// A session of `authsrv`, of a client at the console or not: it does the rows of `specs/Dialogue.antt`.
#[derive(Drop)]
pub struct AuthsrvScript {
    pub console: bool,
}

// Does what the next line asks for.
fn line_turn<D: Stage>(stage: &mut D) -> Result<Option<Place>, Cause>
    ensures ran { Ran rows (At Place.Waiting) leads (D.world stage.old) (D.world stage.new) result }
    ensures form { IfOk result (λ next. IfSome next IsPlace) }
    ensures nearer { IfOk result (λ next. IfSome next (λ p.
        distance p (D.world stage.new) < distance Place.Waiting (D.world stage.old))) }
{
    let heard = stage.hear(Form::Lines)?;
    heard_row(stage, heard)
}

// Asks for the next record of a list.
fn list_turn<D: Stage>(stage: &mut D, after: Option<Name>) -> Result<Option<Place>, Cause>
    requires { IsPlace (Place.Listing after) }
    ensures ran { Ran rows (At (Place.Listing after)) leads (D.world stage.old) (D.world stage.new) result }
    ensures form { IfOk result (λ next. IfSome next IsPlace) }
    ensures nearer { IfOk result (λ next. IfSome next (λ p.
        distance p (D.world stage.new) < distance (Place.Listing after) (D.world stage.old))) }
{
    let reply = stage.ask(Request::List { after })?;
    listed_row(stage, &reply)
}

impl Script for AuthsrvScript {
    type Place = Place;

    ghost rows = { λ script Origin. rows };

    ghost first = { λ script Origin. session_row script.console };

    ghost holds = { λ script place. IsPlace place };

    ghost distance = { λ script Origin place world. distance place world };

    fn begin<D: Stage>(&self, stage: &mut D) -> Result<Option<Place>, Cause> {
        session_row(stage, self.console)
    }

    fn turn<D: Stage>(&self, stage: &mut D, place: Place) -> Result<Option<Place>, Cause> {
        match place {
            Place::Waiting => line_turn(stage),
            Place::Listing(after) => list_turn(stage, after),
        }
    }
}
