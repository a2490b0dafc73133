//! The session as a script.
ghost use Rattle.plug_gate.specs.Dialogue.{connect_row};
ghost use Rattle.session_acts.specs.Denying.{no_rows};

use fw_types::Dest;
use session_acts::{Cause, Form, NoPlace, Script, Stage};

/// A session of the plug, up to its relay: a line is logged, and a destination reached. Where the log fails nothing is asked
/// for.
#[derive(Drop)]
pub struct PlugScript<'l, 'd> {
    /// The connect line, with its end.
    pub line: &'l [u8],
    /// The destination.
    pub dest: &'d Dest,
}

impl<'l, 'd> Script for PlugScript<'l, 'd> {
    type Place = NoPlace;

    ghost rows = { λ script Origin. no_rows };

    ghost first = { λ script Origin. connect_row script.line.now script.dest.now };

    ghost holds = { λ script place. Unit {0} };

    ghost distance = { λ script Origin place world. 0 };

    fn begin<D: Stage>(&self, stage: &mut D) -> Result<Option<NoPlace>, Cause> {
        stage.log(self.line)?;
        stage.reach(self.dest)?;
        Ok(None)
    }

    #[tactic(auto, using(session_acts::proofs::Acting::acting))]
    fn turn<D: Stage>(&self, stage: &mut D, _place: NoPlace) -> Result<Option<NoPlace>, Cause> {
        stage.hear(Form::Lines)?;
        Ok(None)
    }
}
