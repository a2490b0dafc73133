//! The session as a script.
ghost use Rattle.std.specs.Prelude.{◌≡◌, ◌<◌, None, IfOk, IfSome};
ghost use Rattle.ftp_gate.specs.Dialogue.{ftp_row, ftp_rows};
ghost use Rattle.ftp_gate.specs.Distance.{distance};
ghost use Rattle.fw_acts.specs.Acts.Row.{At};
ghost use Rattle.fw_acts.specs.Ran.{Ran};
ghost use Rattle.session_acts.specs.Session.{leads};

use crate::commands::heard_row;
use crate::login::tell_row;
use crate::replies::{answering_turn, dropping_turn};
use crate::{Account, Place, State};
use fw_types::Peer;
use gate_rules::Options;
use session_acts::{Cause, Form, Script, Stage};
use std::marker::Model;

/// A session of `ftp-gw` of a client whom a line of the table permits: it does the rows of `specs/Dialogue.antt`.
#[derive(Drop)]
pub struct FtpScript<'o, 'p> {
    /// The options of that line.
    pub options: &'o Options,
    /// The client.
    pub peer: &'p Peer,
    /// The number of that line.
    pub line: u32,
}

impl<'o, 'p> Model for FtpScript<'o, 'p> {
    ghost use Rattle.ftp_gate.specs.Gate.{Gate};

    ghost Value = { Gate };

    ghost view = { λ script. record { options = script.options.now; peer = script.peer.now; line = script.line } };
}

impl<'o, 'p> FtpScript<'o, 'p> {
    // The options of the line that permits the client.
    pub(crate) fn options(&self) -> &Options
        ensures { result.now ≡ self.now.options }
    {
        self.options
    }

    // Who the client is.
    pub(crate) fn peer(&self) -> &Peer
        ensures { result.now ≡ self.now.peer }
    {
        self.peer
    }

    // The number of the line that permits the client.
    pub(crate) fn line(&self) -> u32
        ensures { result ≡ self.now.line }
    {
        self.line
    }

    // Whether the rules on operations decide each destination, too.
    pub(crate) fn extnd(&self) -> bool
        ensures { result ≡ self.now.options.extnd }
    {
        self.options.extnd
    }
}

// What is done first.
fn first_row<D: Stage>(stage: &mut D, script: &FtpScript) -> Result<Option<Place>, Cause>
    ensures { Ran (ftp_rows script.now) ftp_row leads (D.world stage.old) (D.world stage.new) result }
{
    let state = State {
        account: Account::Unopened,
        dest: None,
        setting: None,
    };
    tell_row(stage, script, b"220 ftp-gw ready\r\n", state)
}

// Waits for a line of the client.
fn listening_turn<D: Stage>(
    stage: &mut D,
    script: &FtpScript,
    state: State,
) -> Result<Option<Place>, Cause>
    ensures ran { Ran (ftp_rows script.now) (At (Place.Listening state)) leads (D.world stage.old)
        (D.world stage.new) result }
    ensures nearer { IfOk result (λ next. IfSome next (λ p.
        distance p (D.world stage.new) < distance (Place.Listening state) (D.world stage.old))) }
{
    let heard = stage.hear(Form::Lines)?;
    heard_row(stage, script, state, heard)
}

impl<'o, 'p> Script for FtpScript<'o, 'p> {
    type Place = Place;

    ghost rows = { λ script Origin. ftp_rows script };

    ghost first = { λ script Origin. ftp_row };

    ghost holds = { λ script place. Unit {0} };

    ghost distance = { λ script Origin place world. distance place world };

    fn begin<D: Stage>(&self, stage: &mut D) -> Result<Option<Place>, Cause> {
        first_row(stage, self)
    }

    fn turn<D: Stage>(&self, stage: &mut D, place: Place) -> Result<Option<Place>, Cause> {
        match place {
            Place::Listening { state } => listening_turn(stage, self, state),
            Place::Answering { state, quits } => answering_turn(stage, self, state, quits),
            Place::Dropping { state } => dropping_turn(stage, self, state),
        }
    }
}
