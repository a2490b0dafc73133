//! What is shown of users, one by one and in order.
ghost use Rattle.auth_events.specs.Fits.{comes_after};
ghost use Rattle.auth_machine.specs.Answer.{number_left, profile_of, summary_profile};
ghost use Rattle.auth_machine.specs.Powers.{by_user, is_next_seen, list, lists, shows, shows_some};
ghost use Rattle.auth_records.specs.Spelling.{otp_fields};
ghost use Rattle.std.specs.Option.{option_copied};
ghost use Rattle.std.specs.Prelude.{find, option_map, ◌≡◌, ◌≤◌};

use crate::change::Change;
use crate::machine_ref::MachineRef;
use crate::powers::{by_user, power_of, sees};
use crate::user_record::UserRecord;
use crate::{Power, Session};
use auth_events::{Denial, Reply, Summary};
use auth_records::Otp;
use fw_types::Name;

fn number_left(otp: &Option<Otp>) -> u32
    ensures is { result ≡ number_left (option_map otp_fields otp.now) }
    ensures most { result ≤ 9999 }
{
    match otp {
        None => 0,
        Some(otp) => otp.number,
    }
}

// What is shown of a record.
pub(crate) fn summary(user: &UserRecord) -> Summary
    ensures { summary_profile result ≡ profile_of user.now }
{
    let record = user.record.twin();
    Summary {
        number: number_left(&record.otp),
        name: record.name,
        group: record.group,
        proto: record.proto,
        enabled: record.enabled,
        wiz: record.wiz,
        fails: record.fails,
        last: record.last,
        expires: record.expires,
        long: record.long,
    }
}

fn shows(user: &UserRecord) -> Change
    ensures { result ≡ shows user.now }
{
    Change::only(Reply::Shown(summary(user)))
}

pub(crate) fn display(machine: &MachineRef, session: &Session, name: &Name) -> Change
    ensures { result ≡ by_user machine.now session.now name.now shows }
{
    match by_user(machine, session, name) {
        Ok(user) => shows(user),
        Err(denial) => Change::denied(denial),
    }
}

fn comes_after(after: &Option<Name>, name: &Name) -> bool
    ensures { result ≡ comes_after after.now name.now }
{
    match after {
        None => true,
        Some(told) => told.is_before(name),
    }
}

fn is_next_seen(power: &Power, after: &Option<Name>, user: &UserRecord) -> bool
    ensures { result ≡ is_next_seen power.now after.now user.now }
{
    comes_after(after, &user.record.name) && sees(power, user)
}

fn next_seen<'a>(
    power: &Power,
    after: &Option<Name>,
    records: &'a [UserRecord],
) -> Option<&'a UserRecord>
    ensures { option_copied result ≡ find (is_next_seen power.now after.now) records.entry.now }
{
    records.iter().find(|user| is_next_seen(power, after, user))
}

fn shows_next(power: &Power, after: &Option<Name>, records: &[UserRecord]) -> Change
    ensures { result ≡ shows_some (find (is_next_seen power.now after.now) records.now) }
{
    match next_seen(power, after, records) {
        None => Change::denied(Denial::NoSuch),
        Some(user) => shows(user),
    }
}

fn lists(power: &Option<Power>, after: &Option<Name>, records: &[UserRecord]) -> Change
    ensures { result ≡ lists power.now after.now records.now }
{
    match power {
        None => Change::denied(Denial::NotIn),
        Some(Power::Nobody) => Change::denied(Denial::NotWizard),
        Some(power) => shows_next(power, after, records),
    }
}

// The next record that the session may see.
#[tactic(auto, unfolding(crate::specs::Powers::list))]
pub(crate) fn list(machine: &MachineRef, session: &Session, after: &Option<Name>) -> Change
    ensures { result ≡ list machine.now session.now after.now }
{
    lists(&power_of(machine, session), after, machine.records)
}
