ghost use Rattle.std.specs.Prelude.{◌≡◌};
ghost use Rattle.std.specs.Option.{option_copied};
ghost use Rattle.std.specs.Str.{bytes_eq};
ghost use Rattle.auth_machine.specs.State.{challenge_at, session_of};

use crate::user_record::UserRecord;
use crate::{Challenge, Session};
use fw_types::Name;
use std::marker::Model;

/// What stands at a moment: the records, in the order of their names, the sessions and the challenges.
#[derive(Drop)]
pub(crate) struct MachineRef<'a> {
    pub(crate) records: &'a [UserRecord],
    pub(crate) sessions: &'a [Session],
    pub(crate) challenges: &'a [Challenge],
    pub(crate) moment: u64,
}

impl<'a> Model for MachineRef<'a> {
    ghost use Rattle.fw_types.specs.Keyed.{Ascends};
    ghost use Rattle.auth_machine.specs.State.{State, record_name};

    ghost Value = { State };

    ghost view = { λ m. record {
      records = m.records.now;
      sessions = m.sessions.now;
      challenges = m.challenges.now;
      moment = m.moment;
    } };

    ghost invariant = { λ m. Ascends record_name m.records.now };
}

pub(crate) fn is_challenge_of(challenge: &Challenge, name: &Name) -> bool
    ensures { result ≡ bytes_eq challenge.now.name name.now }
{
    challenge.name.text() == name.text()
}

// The session of this number.
pub(crate) fn session_of(sessions: &[Session], sid: u64) -> Option<&Session>
    ensures { option_copied result ≡ session_of sid sessions.entry.now }
{
    sessions.iter().find(|session| session.sid == sid)
}

// The challenge of this name.
pub(crate) fn challenge_at<'a>(challenges: &'a [Challenge], name: &Name) -> Option<&'a Challenge>
    ensures { option_copied result ≡ challenge_at name.now challenges.entry.now }
{
    challenges
        .iter()
        .find(|challenge| is_challenge_of(challenge, name))
}
