//! A small session that puts a client through to a server, once it has said a line, which it is told.
ghost use Rattle.std.specs.Prelude.{◌≡◌, None, IfOk};
ghost use Rattle.fw_acts.specs.Acts.Row.{Do, Over};
ghost use Rattle.fw_acts.specs.Ran.{Ran};
ghost use Rattle.session_acts.specs.Acts.Act.{HangUp};
ghost use Rattle.session_acts.specs.Session.{leads};
ghost use Rattle.session_acts.specs.declared.form.Form.{Form};
ghost use Rattle.session_rows.specs.Through.{first_row, line_row, rows};

use fw_outside::Heard;
use fw_types::Dest;
use session_acts::{Cause, Form, Script, Stage, tell};

/// Where the session waits.
#[derive(Drop)]
pub(crate) enum Knocking {
    /// For a line of the client.
    ForLine,
}

/// The session, the destination that it reaches, and in which form the client is heard.
#[derive(Drop)]
pub(crate) struct PutThrough {
    pub(crate) dest: Dest,
    pub(crate) form: Form,
}

// Takes the link away.
fn away_row<D: Stage>(stage: &mut D) -> Result<Option<Knocking>, Cause>
    ensures ran { (form : Form) → Ran (rows form) (Do HangUp (λ done. Over)) leads (D.world stage.old) (D.world stage.new) result }
    ensures at { IfOk result (λ next. next ≡ None) }
{
    stage.hang_up();
    Ok(None)
}

fn line_row<D: Stage>(stage: &mut D, heard: Heard) -> Result<Option<Knocking>, Cause>
    ensures ran { (form : Form) → Ran (rows form) (line_row heard) leads (D.world stage.old) (D.world stage.new) result }
    ensures at { IfOk result (λ next. next ≡ None) }
{
    match heard {
        Heard::Line(line) => tell(stage, line.as_slice(), None),
        Heard::TooLong => away_row(stage),
        Heard::Stopped(_) => away_row(stage),
    }
}

impl Script for PutThrough {
    type Place = Knocking;

    ghost rows = { λ through Origin. rows through.form };

    ghost first = { λ through Origin. first_row through.dest };

    ghost holds = { λ through place. Unit {0} };

    ghost distance = { λ through Origin place world. 0 };

    fn begin<D: Stage>(&self, stage: &mut D) -> Result<Option<Knocking>, Cause> {
        stage.reach(&self.dest)?;
        Ok(Some(Knocking::ForLine))
    }

    fn turn<D: Stage>(&self, stage: &mut D, _place: Knocking) -> Result<Option<Knocking>, Cause> {
        let heard = stage.hear(self.form)?;
        line_row(stage, heard)
    }
}
