//! What holds of the relay.
ghost use Rattle.std.specs.Prelude.{◌≡◌, Bool, None};
ghost use Rattle.fw_types.specs.declared.dest.Dest.{Dest};
ghost use Rattle.fw_types.specs.declared.ending.Ending.{Ending};
ghost use Rattle.session_acts.specs.Course.{Course};
ghost use Rattle.session_acts.specs.Deeds.{gives};
ghost use Rattle.session_acts.specs.Session.{Held, deeds_of};
ghost use Rattle.session_acts.specs.Talk.{asked};
ghost use Rattle.session_acts.specs.World.{World};
ghost use Rattle.session_rows.specs.Relay.{first_row, rows};

use crate::relay::Place;
use session_acts::laws;

/// The relay's requests follow their course, so that the law of the base can be used of it.
pub fn the_course_is_kept<Origin>()
    ensures { (console : Bool) (dest : Dest) (old new : World Origin) (ending : Ending)
        (held : Held rows (first_row dest) old new ending) → old.office.opened ≡ None →
        Course console (gives asked (deeds_of held)) }
{
    laws::a_session_is_closed_once::<Origin, Place>()
}
