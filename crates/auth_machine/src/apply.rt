//! Carrying changes out, for which there is room.
ghost use Rattle.std.specs.Prelude.{◌≡◌, ◌≤◌, ◌<◌, ◌++◌, ◌∷◌, [], not};
ghost use Rattle.std.specs.Str.{bytes_eq};
ghost use Rattle.std.specs.Vec.{vec_capacity, vec_len};
ghost use Rattle.fw_types.specs.Keyed.{Ascends, placed, without};
ghost use Rattle.auth_machine.specs.State.{records_after, challenges_after, record_name, sessions_after, without_name, without_own, without_session};

use crate::machine_ref::is_challenge_of;
use crate::record_change::{ChallengeChange, RecordChange, SessionChange};
use crate::search::{count_before, is_named, stands_at};
use crate::user_record::UserRecord;
use crate::{Challenge, Session};
use fw_types::Name;

fn without_record(records: &mut Vec<UserRecord>, name: &Name)
    ensures is { records.new.items ≡ without record_name name.now records.old.items }
    ensures len { vec_len records.new ≤ vec_len records.old }
    ensures room { vec_capacity records.new ≡ vec_capacity records.old }
{
    records.retain(|user| !is_named(user, name));
}

// Puts the record in the place of the one with its name, or between its neighbours where there is none.
fn put_record(records: &mut Vec<UserRecord>, user: UserRecord)
    requires room { vec_len records.old < vec_capacity records.old }
    requires ordered { Ascends record_name records.old.items }
    ensures { records.new.items ≡ placed record_name user (without record_name user.name records.old.items) }
{
    let at = count_before(records, &user.record.name);
    if stands_at(records, at, &user.record.name) {
        records[at] = user;
        return;
    }
    if records.insert(at, user).is_err() {
        unreachable!();
    }
}

// Carries out what becomes of the records.
pub(crate) fn change_records(records: &mut Vec<UserRecord>, change: RecordChange)
    requires room { vec_len records.old < vec_capacity records.old }
    requires ordered { Ascends record_name records.old.items }
    ensures { records.new.items ≡ records_after change records.old.items }
{
    match change {
        RecordChange::Leave => (),
        RecordChange::Put(user) => put_record(records, user),
        RecordChange::Delete(name) => without_record(records, &name),
    }
}

fn without_session(sessions: &mut Vec<Session>, sid: u64)
    ensures is { sessions.new.items ≡ without_session sid sessions.old.items }
    ensures len { vec_len sessions.new ≤ vec_len sessions.old }
    ensures room { vec_capacity sessions.new ≡ vec_capacity sessions.old }
{
    sessions.retain(|session| session.sid != sid);
}

// Carries out what becomes of the session.
pub(crate) fn change_sessions(sessions: &mut Vec<Session>, change: SessionChange, sid: u64)
    requires { vec_len sessions.old < vec_capacity sessions.old }
    ensures { sessions.new.items ≡ sessions_after change sid sessions.old.items }
{
    match change {
        SessionChange::Stay => (),
        SessionChange::Become(session) => {
            without_session(sessions, session.sid);
            sessions.push_reserved(session);
        }
        SessionChange::End => without_session(sessions, sid),
    }
}

fn without_own(challenges: &mut Vec<Challenge>, sid: u64)
    ensures is { challenges.new.items ≡ without_own sid challenges.old.items }
    ensures len { vec_len challenges.new ≤ vec_len challenges.old }
    ensures room { vec_capacity challenges.new ≡ vec_capacity challenges.old }
{
    challenges.retain(|challenge| challenge.sid != sid);
}

fn without_name(challenges: &mut Vec<Challenge>, name: &Name)
    ensures is { challenges.new.items ≡ without_name name.now challenges.old.items }
    ensures len { vec_len challenges.new ≤ vec_len challenges.old }
    ensures room { vec_capacity challenges.new ≡ vec_capacity challenges.old }
{
    challenges.retain(|challenge| !is_challenge_of(challenge, name));
}

// Carries out what becomes of the challenges.
pub(crate) fn change_challenges(
    challenges: &mut Vec<Challenge>,
    change: ChallengeChange,
    sid: u64,
    moment: u64,
)
    requires { vec_len challenges.old < vec_capacity challenges.old }
    ensures { challenges.new.items ≡ challenges_after change sid moment challenges.old.items }
{
    match change {
        ChallengeChange::Same => (),
        ChallengeChange::Drop => without_own(challenges, sid),
        ChallengeChange::Take(name) => {
            without_own(challenges, sid);
            without_name(challenges, &name);
            challenges.push_reserved(Challenge {
                name,
                sid,
                at: moment,
            });
        }
        ChallengeChange::Free(name) => without_name(challenges, &name),
    }
}
