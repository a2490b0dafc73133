ghost use Rattle.std.specs.Prelude.{ℕ, ◌<◌, Some, IfOk, IfSome};
ghost use Rattle.fw_acts.specs.Acts.{Row, PlaceTable};
ghost use Rattle.fw_acts.specs.Acts.Row.{At};
ghost use Rattle.fw_acts.specs.Ran.{Ran};
ghost use Rattle.session_acts.specs.Met.{acts};
ghost use Rattle.session_acts.specs.Session.{leads};
ghost use Rattle.session_acts.specs.World.{World};

use crate::{Cause, Stage};

/// What a kind of session does: its places, and the rows that it runs from each.
pub trait Script {
    /// Where the session waits.
    type Place: Drop;

    /// What is done at each place, whatever the answers of the port stand on.
    ghost rows: { Self → (Origin : Type 0) → PlaceTable (acts Origin) Self.Place };

    /// What is done first.
    ghost first: { Self → (Origin : Type 0) → Row (acts Origin) Self.Place };

    /// What holds at each place to which the session comes.
    ghost holds: { Self → Self.Place → Type 0 };

    /// How far the session is from its end, at most, where it is at a place.
    ghost distance: { Self → (Origin : Type 0) → Self.Place → World Origin → ℕ };

    /// Does what is done first, up to a place or the end.
    fn begin<D: Stage>(&self, stage: &mut D) -> Result<Option<Self::Place>, Cause>
        ensures ran { Ran (rows self.now D.Origin) (first self.now D.Origin) leads (D.world stage.old)
            (D.world stage.new) result }
        ensures form { IfOk result (λ next. IfSome next (holds self.now)) };

    /// Does what is done at a place, up to the next place or the end, to which it comes nearer.
    fn turn<D: Stage>(
        &self,
        stage: &mut D,
        place: Self::Place,
    ) -> Result<Option<Self::Place>, Cause>
        requires { holds self.now place }
        ensures ran { Ran (rows self.now D.Origin) (At place) leads (D.world stage.old) (D.world stage.new) result }
        ensures form { IfOk result (λ next. IfSome next (holds self.now)) }
        ensures nearer { IfOk result (λ next. IfSome next (λ p.
            distance self.now D.Origin p (D.world stage.new) < distance self.now D.Origin place (D.world stage.old))) };
}
