//! Logging in.
ghost use Rattle.std.specs.Prelude.{◌≡◌, Some, None};
ghost use Rattle.std.specs.Option.{option_copied};
ghost use Rattle.auth_records.specs.Spelling.{fields, otp_fields};
ghost use Rattle.auth_machine.specs.Answer.{answer_of};
ghost use Rattle.auth_machine.specs.Login.{asks, asks_word, asleep, authenticate, authenticate_as, challenges, guarded, has_expired, has_password, is_disabled, later, refusal};
ghost use Rattle.auth_machine.specs.State.{record_at};

use crate::change::{Change, in_phase};
use crate::machine_ref::{MachineRef, challenge_at};
use crate::record_change::{ChallengeChange, RecordChange, SessionChange};
use crate::search::record_at;
use crate::user_record::UserRecord;
use crate::{Challenge, Phase, Policy, Session};
use auth_events::{Denial, Reply};
use auth_records::{Otp, Plain, Proto, Record};
use fw_types::Name;

fn later(at: u64, seconds: u64) -> u64
    ensures { result ≡ later at seconds }
{
    at.saturating_add(seconds)
}

fn has_password(user: &UserRecord) -> bool
    ensures { result ≡ has_password user.now.proto user.now }
{
    match user.record.proto {
        Proto::None => false,
        Proto::Plain => user.record.plain.is_some(),
        Proto::Otp => user.record.otp.is_some(),
    }
}

fn is_disabled(bad_sleep: Option<u64>, user: &UserRecord) -> bool
    ensures { result ≡ is_disabled bad_sleep user.now }
{
    !user.record.enabled || !has_password(user) || user.record.fails == 5 && bad_sleep.is_none()
}

fn has_expired(moment: u64, user: &UserRecord) -> bool
    ensures { result ≡ has_expired moment user.now }
{
    user.record.expires != 0 && user.record.expires <= moment
}

fn asleep(bad_sleep: Option<u64>, moment: u64, user: &UserRecord) -> Option<Denial>
    ensures { result ≡ asleep bad_sleep moment user.now }
{
    match bad_sleep {
        None => None,
        Some(seconds) => {
            let until = later(user.record.since, seconds);
            if user.record.fails == 5 && (seconds > 0 && moment < until) {
                return Some(Denial::Sleeping { until });
            }
            None
        }
    }
}

pub(crate) fn refusal(policy: &Policy, moment: u64, user: &UserRecord) -> Option<Denial>
    ensures { result ≡ refusal policy.now moment user.now }
{
    if is_disabled(policy.bad_sleep(), user) {
        return Some(Denial::Disabled);
    }
    if has_expired(moment, user) {
        return Some(Denial::Expired {
            at: user.record.expires,
        });
    }
    asleep(policy.bad_sleep(), moment, user)
}

fn guarded(challenge: Option<&Challenge>, sid: u64, moment: u64) -> Option<Denial>
    ensures { result ≡ guarded (option_copied challenge.entry) sid moment }
{
    match challenge {
        None => None,
        Some(challenge) => {
            let until = later(challenge.at, 60);
            if challenge.sid != sid && moment < until {
                return Some(Denial::Busy {
                    sid: challenge.sid,
                    until,
                });
            }
            None
        }
    }
}

fn challenges(session: &Session, name: &Name, otp: &Otp) -> Change
    ensures { result ≡ challenges session.now name.now (otp_fields otp.now) }
{
    Change {
        reply: Reply::Challenge {
            number: otp.number.saturating_sub(1),
            word_seed: otp.word_seed.twin(),
        },
        records: RecordChange::Leave,
        session: SessionChange::Become(in_phase(session, Phase::Waiting { name: name.twin() })),
        challenge: ChallengeChange::Take(name.twin()),
    }
}

fn asks_word(machine: &MachineRef, session: &Session, name: &Name, otp: &Otp) -> Change
    ensures { result ≡ asks_word machine.now session.now name.now (otp_fields otp.now) }
{
    if otp.number == 0 {
        return Change::drops(session, Reply::Denied(Denial::Exhausted), Phase::Idle);
    }
    let current = challenge_at(machine.challenges, name);
    match guarded(current, session.sid, machine.moment) {
        Some(denial) => Change::drops(session, Reply::Denied(denial), Phase::Idle),
        None => challenges(session, name, otp),
    }
}

fn asks(machine: &MachineRef, session: &Session, name: &Name, user: &UserRecord) -> Change
    ensures { result ≡ asks machine.now session.now name.now user.now.proto user.now.otp }
{
    match (user.record.proto, &user.record.otp) {
        (Proto::Plain, _) => Change::drops(
            session,
            Reply::Password,
            Phase::Waiting { name: name.twin() },
        ),
        (Proto::Otp, Some(otp)) => asks_word(machine, session, name, otp),
        (Proto::Otp, None) | (Proto::None, _) => Change::drops(
            session,
            Reply::Denied(Denial::Disabled),
            Phase::Idle,
        ),
    }
}

fn authenticate_unknown(
    policy: &Policy,
    machine: &MachineRef,
    session: &Session,
    name: &Name,
) -> Change
    ensures { result ≡ authenticate_as policy.now machine.now session.now name.now None }
{
    if policy.no_bogus() {
        return Change::drops(session, Reply::Denied(Denial::Unknown), Phase::Idle);
    }
    Change::drops(session, Reply::Password, Phase::Bogus)
}

fn authenticate_as(
    policy: &Policy,
    machine: &MachineRef,
    session: &Session,
    name: &Name,
    user: &UserRecord,
) -> Change
    ensures { result ≡ authenticate_as policy.now machine.now session.now name.now (Some user.now) }
{
    match refusal(policy, machine.moment, user) {
        Some(denial) => Change::drops(session, Reply::Denied(denial), Phase::Idle),
        None => asks(machine, session, name, user),
    }
}

// Asks for the password of this user.
#[tactic(auto, unfolding(crate::specs::Login::authenticate))]
pub(crate) fn authenticate(
    policy: &Policy,
    machine: &MachineRef,
    session: &Session,
    name: &Name,
) -> Change
    ensures { result ≡ authenticate policy.now machine.now session.now name.now }
{
    match record_at(machine.records, name) {
        None => authenticate_unknown(policy, machine, session, name),
        Some(user) => authenticate_as(policy, machine, session, name, user),
    }
}
