//! Opening and closing a session.
ghost use Rattle.auth_machine.specs.Step.{closes, opens};
ghost use Rattle.std.specs.Prelude.{◌≡◌};

use crate::change::Change;
use crate::record_change::{ChallengeChange, RecordChange, SessionChange};
use crate::{Phase, Session};
use auth_events::Reply;

pub(crate) fn opens(place: u64, console: bool) -> Change
    ensures { result ≡ opens place console }
{
    Change {
        reply: Reply::Opened { sid: place },
        records: RecordChange::Leave,
        session: SessionChange::Become(Session {
            sid: place,
            console,
            phase: Phase::Idle,
        }),
        challenge: ChallengeChange::Same,
    }
}

pub(crate) fn closes() -> Change
    ensures { result ≡ closes }
{
    Change {
        reply: Reply::Ok,
        records: RecordChange::Leave,
        session: SessionChange::End,
        challenge: ChallengeChange::Drop,
    }
}
