//! What the rows of many scripts end with.
ghost use Rattle.std.specs.Prelude.{◌≡◌, IfOk};
ghost use Rattle.fw_acts.specs.Acts.{PlaceTable};
ghost use Rattle.fw_acts.specs.Acts.Row.{Do};
ghost use Rattle.fw_acts.specs.Ran.{Ran};
ghost use Rattle.session_acts.specs.Acts.Act.{Log, Say};
ghost use Rattle.session_acts.specs.Met.{acts};
ghost use Rattle.session_acts.specs.Session.{leads};

use crate::{Cause, Stage};

/// Gives the client a text, and comes to a place, or to the end.
#[tactic(auto, using(crate::proofs::Acting::acting))]
pub fn tell<D: Stage, P: Drop>(
    stage: &mut D,
    text: &[u8],
    place: Option<P>,
) -> Result<Option<P>, Cause>
    ensures ran { (rows : PlaceTable (acts D.Origin) P) →
        Ran rows (Do (Say text.now) (λ done. leads place)) leads (D.world stage.old) (D.world stage.new) result }
    ensures at { IfOk result (λ next. next ≡ place) }
{
    match stage.say(text) {
        Ok(()) => Ok(place),
        Err(cause) => Err(cause),
    }
}

/// Gives the log a text and then the client one, and comes to a place, or to the end. Where the log fails the client is
/// told nothing.
#[tactic(auto, using(crate::proofs::Acting::acting))]
pub fn log_and_tell<D: Stage, P: Drop>(
    stage: &mut D,
    line: &[u8],
    text: &[u8],
    place: Option<P>,
) -> Result<Option<P>, Cause>
    ensures ran { (rows : PlaceTable (acts D.Origin) P) →
        Ran rows (Do (Log line.now) (λ logged. Do (Say text.now) (λ done. leads place))) leads (D.world stage.old)
        (D.world stage.new) result }
    ensures at { IfOk result (λ next. next ≡ place) }
{
    match stage.log(line) {
        Ok(()) => tell(stage, text, place),
        Err(cause) => Err(cause),
    }
}
