//! The session as a script.
ghost use Rattle.std.specs.Prelude.{◌≡◌, ◌<◌, false, true, IfOk, IfSome};
ghost use Rattle.fw_acts.specs.Acts.Row.{At};
ghost use Rattle.fw_acts.specs.Ran.{Ran};
ghost use Rattle.session_acts.specs.Session.{leads};
ghost use Rattle.tn_gate.specs.Dialogue.{first_by, tn_row, tn_rows};
ghost use Rattle.tn_gate.specs.Distance.{distance};
ghost use Rattle.tn_gate.specs.Gate.{asks_login};

use crate::Place;
use crate::commands::{ask_command, commanding_row};
use crate::login::{answering_row, ask_name, naming_row};
use fw_types::{Name, Peer};
use gate_rules::Options;
use session_acts::{Cause, Form, Script, Stage};
use std::marker::Model;

/// A session of `tn-gw`, up to its relay, of a client whom a line of the table permits: it does the rows of
/// `specs/Dialogue.antt`.
#[derive(Drop)]
pub struct TnScript<'o, 'p> {
    /// The options of that line.
    pub options: &'o Options,
    /// The client.
    pub peer: &'p Peer,
    /// The number of that line.
    pub line: u32,
}

impl<'o, 'p> Model for TnScript<'o, 'p> {
    ghost use Rattle.tn_gate.specs.Gate.{Gate};

    ghost Value = { Gate };

    ghost view = { λ script. record { options = script.options.now; peer = script.peer.now; line = script.line } };
}

impl<'o, 'p> TnScript<'o, 'p> {
    // The number of the line that permits the client.
    pub(crate) fn line(&self) -> u32
        ensures { result ≡ self.now.line }
    {
        self.line
    }

    // Whether the rules on operations decide each destination, too.
    pub(crate) fn extnd(&self) -> bool
        ensures { result ≡ self.now.options.extnd }
    {
        self.options.extnd
    }

    // Whether that line asks for a login.
    pub(crate) fn asks_login(&self) -> bool
        ensures { result ≡ asks_login self.now.options }
    {
        asks_login(self.options)
    }
}

const FORM: Form = Form::Telnet;

fn asks_login(options: &Options) -> bool
    ensures { result ≡ asks_login options.now }
{
    options.auth.is_some() || options.authall || options.extnd
}

// What is done first.
fn first_row<D: Stage>(stage: &mut D, script: &TnScript) -> Result<Option<Place>, Cause>
    ensures { Ran (tn_rows script.now) (tn_row script.now) leads (D.world stage.old) (D.world stage.new) result }
{
    if script.asks_login() {
        return ask_name(stage, script, b"", false);
    }
    ask_command(stage, script, b"")
}

// Waits for a name.
fn naming_turn<D: Stage>(
    stage: &mut D,
    script: &TnScript,
    is_open: bool,
) -> Result<Option<Place>, Cause>
    ensures ran { Ran (tn_rows script.now) (At (Place.Naming is_open)) leads (D.world stage.old) (D.world stage.new) result }
    ensures nearer { IfOk result (λ next. IfSome next (λ p.
        distance p (D.world stage.new) < distance (Place.Naming is_open) (D.world stage.old))) }
{
    let heard = stage.hear(FORM)?;
    naming_row(stage, script, is_open, heard)
}

// Waits for a response.
fn answering_turn<D: Stage>(
    stage: &mut D,
    script: &TnScript,
    name: Name,
    hidden: bool,
) -> Result<Option<Place>, Cause>
    ensures ran { Ran (tn_rows script.now) (At (Place.Answering name hidden)) leads (D.world stage.old)
        (D.world stage.new) result }
    ensures nearer { IfOk result (λ next. IfSome next (λ p.
        distance p (D.world stage.new) < distance (Place.Answering name hidden) (D.world stage.old))) }
{
    let heard = stage.hear(FORM)?;
    answering_row(stage, script, &name, hidden, heard)
}

// Waits for a command.
fn commanding_turn<D: Stage>(stage: &mut D, script: &TnScript) -> Result<Option<Place>, Cause>
    ensures ran { Ran (tn_rows script.now) (At Place.Commanding) leads (D.world stage.old) (D.world stage.new) result }
    ensures nearer { IfOk result (λ next. IfSome next (λ p.
        distance p (D.world stage.new) < distance Place.Commanding (D.world stage.old))) }
{
    let heard = stage.hear(FORM)?;
    commanding_row(stage, script, heard)
}

impl<'o, 'p> Script for TnScript<'o, 'p> {
    type Place = Place;

    ghost rows = { λ script Origin. tn_rows script };

    ghost first = { λ script Origin. tn_row script };

    ghost holds = { λ script place. Unit {0} };

    ghost distance = { λ script Origin place world. distance place world };

    fn begin<D: Stage>(&self, stage: &mut D) -> Result<Option<Place>, Cause> {
        first_row(stage, self)
    }

    fn turn<D: Stage>(&self, stage: &mut D, place: Place) -> Result<Option<Place>, Cause> {
        match place {
            Place::Naming { is_open } => naming_turn(stage, self, is_open),
            Place::Answering { name, hidden } => answering_turn(stage, self, name, hidden),
            Place::Commanding => commanding_turn(stage, self),
        }
    }
}
