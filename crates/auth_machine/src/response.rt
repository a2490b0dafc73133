//! Responses: whether they are right.
ghost use Rattle.std.specs.Prelude.{◌≡◌, ◌≤◌, ◌++◌, Some, None};
ghost use Rattle.md5.specs.Md5.{md5};
ghost use Rattle.std.specs.Option.{option_copied};
ghost use Rattle.auth_records.specs.Spelling.{fields, otp_fields};
ghost use Rattle.auth_machine.specs.Answer.{answer_of};
ghost use Rattle.auth_machine.specs.State.{record_at};
ghost use Rattle.auth_machine.specs.Login.{checks, checks_otp, checks_plain, checks_word, failed, is_own_challenge, is_password, logged_in, one_more, respond, respond_as, respond_in, right, used, wrong};

use crate::change::Change;
use crate::login::refusal;
use crate::machine_ref::{MachineRef, challenge_at};
use crate::search::record_at;
use crate::user_record::UserRecord;
use crate::{Challenge, Phase, Policy, Session};
use auth_events::{Denial, Reply};
use auth_records::{Otp, Plain, Proto, Record};
use fw_types::Name;
use md5::{Digest, Md5};
use otp_md5::next;

fn one_more(fails: u8) -> u8
    requires { fails ≤ 5 }
    ensures is { result ≡ one_more fails }
    ensures most { result ≤ 5 }
{
    if fails == 5 { 1 } else { fails + 1 }
}

fn failed(moment: u64, user: &UserRecord) -> UserRecord
    ensures { result ≡ failed moment user.now }
{
    let mut record = user.record.twin();
    let fails = one_more(record.fails);
    if fails == 5 {
        record.since = moment;
    }
    record.fails = fails;
    UserRecord { record }
}

fn logged_in(moment: u64, user: &UserRecord) -> UserRecord
    ensures { result ≡ logged_in moment user.now }
{
    let mut record = user.record.twin();
    record.fails = 0;
    record.last = moment;
    UserRecord { record }
}

fn used(moment: u64, user: &UserRecord, otp: &Otp, word: u64) -> UserRecord
    ensures { result ≡ used moment user.now (otp_fields otp.now) word }
{
    let mut record = user.record.twin();
    record.fails = 0;
    record.last = moment;
    record.otp = Some(Otp {
        number: otp.number.saturating_sub(1),
        word_seed: otp.word_seed.twin(),
        kept: word,
    });
    UserRecord { record }
}

fn wrong(machine: &MachineRef, session: &Session, user: &UserRecord) -> Change
    ensures { result ≡ wrong machine.now session.now user.now }
{
    let user = failed(machine.moment, user);
    Change::settles(session, Reply::Denied(Denial::Wrong), Phase::Idle, user)
}

fn right(session: &Session, name: &Name, user: UserRecord) -> Change
    ensures { result ≡ right session.now name.now user }
{
    Change::settles(session, Reply::Ok, Phase::In { name: name.twin() }, user)
}

// The digest of a text behind the salt.
pub(crate) fn salted(salt: &[u8; 8], hash: &[u8; 16]) -> [u8; 16]
    ensures { result ≡ md5 (salt.now ++ hash.now) }
{
    let mut hasher = Md5::new();
    hasher.update(salt);
    hasher.update(hash);
    hasher.finalize()
}

fn is_password(hash: &[u8; 16], plain: &Plain) -> bool
    ensures { result ≡ is_password hash.now plain.now }
{
    salted(&plain.salt, hash).as_slice() == plain.hash.as_slice()
}

fn checks_plain(
    machine: &MachineRef,
    session: &Session,
    name: &Name,
    user: &UserRecord,
    hash: &[u8; 16],
) -> Change
    ensures { result ≡ checks_plain machine.now session.now name.now user.now hash.now user.now.plain }
{
    match &user.record.plain {
        None => Change::drops(session, Reply::Denied(Denial::Disabled), Phase::Idle),
        Some(plain) => {
            if is_password(hash, plain) {
                return right(session, name, logged_in(machine.moment, user));
            }
            wrong(machine, session, user)
        }
    }
}

fn checks_word(
    machine: &MachineRef,
    session: &Session,
    name: &Name,
    user: &UserRecord,
    otp: &Otp,
    word: Option<u64>,
) -> Change
    ensures { result ≡ checks_word machine.now session.now name.now user.now (otp_fields otp.now) word }
{
    match word {
        None => wrong(machine, session, user),
        Some(word) => {
            if next(word) == otp.kept {
                return right(session, name, used(machine.moment, user, otp, word));
            }
            wrong(machine, session, user)
        }
    }
}

fn is_own_challenge(challenge: Option<&Challenge>, sid: u64) -> bool
    ensures { result ≡ is_own_challenge (option_copied challenge.entry) sid }
{
    match challenge {
        None => false,
        Some(challenge) => challenge.sid == sid,
    }
}

fn checks_otp(
    machine: &MachineRef,
    session: &Session,
    name: &Name,
    user: &UserRecord,
    word: Option<u64>,
) -> Change
    ensures { result ≡ checks_otp machine.now session.now name.now user.now word user.now.otp }
{
    match &user.record.otp {
        None => Change::drops(session, Reply::Denied(Denial::Disabled), Phase::Idle),
        Some(otp) => {
            if !is_own_challenge(challenge_at(machine.challenges, name), session.sid) {
                return Change::turns(session, Reply::Denied(Denial::NoChallenge), Phase::Idle);
            }
            if otp.number == 0 {
                return Change::drops(session, Reply::Denied(Denial::Exhausted), Phase::Idle);
            }
            checks_word(machine, session, name, user, otp, word)
        }
    }
}

fn checks(
    machine: &MachineRef,
    session: &Session,
    name: &Name,
    user: &UserRecord,
    hash: &[u8; 16],
    word: Option<u64>,
) -> Change
    ensures { result ≡ checks machine.now session.now name.now user.now hash.now word user.now.proto }
{
    match user.record.proto {
        Proto::Plain => checks_plain(machine, session, name, user, hash),
        Proto::Otp => checks_otp(machine, session, name, user, word),
        Proto::None => Change::drops(session, Reply::Denied(Denial::Disabled), Phase::Idle),
    }
}

fn respond_known(
    policy: &Policy,
    machine: &MachineRef,
    session: &Session,
    name: &Name,
    hash: &[u8; 16],
    word: Option<u64>,
    user: &UserRecord,
) -> Change
    ensures { result ≡ respond_as policy.now machine.now session.now name.now hash.now word (Some user.now) }
{
    match refusal(policy, machine.moment, user) {
        Some(denial) => Change::drops(session, Reply::Denied(denial), Phase::Idle),
        None => checks(machine, session, name, user, hash, word),
    }
}

fn respond_as(
    policy: &Policy,
    machine: &MachineRef,
    session: &Session,
    name: &Name,
    hash: &[u8; 16],
    word: Option<u64>,
) -> Change
    ensures { result ≡ respond_as policy.now machine.now session.now name.now hash.now word (record_at name.now
        machine.now.records) }
{
    match record_at(machine.records, name) {
        None => Change::turns(session, Reply::Denied(Denial::Wrong), Phase::Idle),
        Some(user) => respond_known(policy, machine, session, name, hash, word, user),
    }
}

// Compares a response with the password that was asked for.
#[tactic(auto, unfolding(crate::specs::Login::respond))]
pub(crate) fn respond(
    policy: &Policy,
    machine: &MachineRef,
    session: &Session,
    hash: &[u8; 16],
    word: Option<u64>,
) -> Change
    ensures { result ≡ respond policy.now machine.now session.now hash.now word }
{
    match &session.phase {
        Phase::Idle | Phase::In { .. } => Change::denied(Denial::NoChallenge),
        Phase::Bogus => Change::turns(session, Reply::Denied(Denial::Wrong), Phase::Idle),
        Phase::Waiting { name } => respond_as(policy, machine, session, name, hash, word),
    }
}
