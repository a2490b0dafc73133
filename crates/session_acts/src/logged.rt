ghost use Rattle.fw_acts.specs.Acts.Row.{Do};
ghost use Rattle.session_acts.specs.Acts.Act.{Log};

use crate::{Cause, Script, Stage};

/// A session before whose first act a line is logged: that of the verdict, say. Where the log fails nothing else is done.
/// It has the places of the session that it holds.
#[derive(Drop)]
pub struct Logged<'l, 's, T: Script> {
    /// The line, with its end.
    pub line: &'l [u8],
    /// What follows.
    pub session: &'s T,
}

impl<'l, 's, T: Script> Script for Logged<'l, 's, T> {
    type Place = T::Place;

    ghost rows = { λ logged Origin. T.rows logged.session.now Origin };

    ghost first = { λ logged Origin. Do (Log logged.line.now) (λ done. T.first logged.session.now Origin) };

    ghost holds = { λ logged place. T.holds logged.session.now place };

    ghost distance = { λ logged Origin place world. T.distance logged.session.now Origin place world };

    fn begin<D: Stage>(&self, stage: &mut D) -> Result<Option<T::Place>, Cause> {
        stage.log(self.line)?;
        self.session.begin(stage)
    }

    fn turn<D: Stage>(&self, stage: &mut D, place: T::Place) -> Result<Option<T::Place>, Cause> {
        self.session.turn(stage, place)
    }
}
