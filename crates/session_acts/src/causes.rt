//! For which causes a session stops.
ghost use Rattle.std.specs.Prelude.{◌≡◌};
ghost use Rattle.session_acts.specs.Acts.{silence_cause};

use crate::{Cause, Silence};

/// For what a session stops that hears nothing, where a fault is this one.
pub(crate) fn silence_cause(fault: Cause, silence: Silence) -> Cause
    ensures { result ≡ silence_cause fault silence }
{
    match silence {
        Silence::Quiet => Cause::Idle,
        Silence::Broken => fault,
        Silence::Limit => Cause::Spent,
    }
}
