//! What those who are logged in may do.
ghost use Rattle.std.specs.Prelude.{◌≡◌, Some, None, option_map, MatchResult, Ok, Err};
ghost use Rattle.std.specs.Option.{option_copied};
ghost use Rattle.auth_machine.specs.Powers.{covers, is_name_in, is_super, name_in_phase, over_all, own_power, power_of, reachable, record_of, same_group, sees, user_of, wizard_power};
ghost use Rattle.auth_machine.specs.State.{record_at};

use crate::machine_ref::MachineRef;
use crate::search::record_at;
use crate::user_record::UserRecord;
use crate::{Phase, Power, Session};
use auth_events::Denial;
use auth_records::Wiz;
use fw_types::Name;

// The name of the user who is logged in.
fn name_in_phase(phase: &Phase) -> Option<&Name>
    ensures { option_copied result ≡ name_in_phase phase.entry.now }
{
    match phase {
        Phase::In { name } => Some(name),
        Phase::Idle | Phase::Bogus | Phase::Waiting { .. } => None,
    }
}

// The record of the user who is logged in.
pub(crate) fn user_of<'a>(machine: &MachineRef<'a>, session: &Session) -> Option<&'a UserRecord>
    ensures { option_copied result ≡ user_of machine.now session.now }
{
    match name_in_phase(&session.phase) {
        None => None,
        Some(name) => record_at(machine.records, name),
    }
}

pub(crate) fn group_twin(group: &Option<Name>) -> Option<Name>
    ensures { result ≡ group.now }
{
    match group {
        Some(name) => Some(name.twin()),
        None => None,
    }
}

fn wizard_power(user: &UserRecord) -> Power
    ensures { result ≡ wizard_power user.now.wiz user.now.group }
{
    match user.record.wiz {
        Wiz::None => Power::Nobody,
        Wiz::Group => Power::Members(group_twin(&user.record.group)),
        Wiz::Super => Power::Everybody,
    }
}

// The power of the session, where somebody is logged in.
pub(crate) fn power_of(machine: &MachineRef, session: &Session) -> Option<Power>
    ensures { result ≡ power_of machine.now session.now }
{
    if session.console {
        return Some(Power::Everybody);
    }
    match user_of(machine, session) {
        None => None,
        Some(user) => Some(wizard_power(user)),
    }
}

fn same_group(one: &Option<Name>, other: &Option<Name>) -> bool
    ensures { result ≡ same_group one.now other.now }
{
    match (one, other) {
        (Some(one), Some(other)) => one.text() == other.text(),
        (Some(_), None) | (None, _) => false,
    }
}

fn is_super(wiz: Wiz) -> bool
    ensures { result ≡ is_super wiz }
{
    match wiz {
        Wiz::Super => true,
        Wiz::Group | Wiz::None => false,
    }
}

// The power to list the record.
pub(crate) fn sees(power: &Power, user: &UserRecord) -> bool
    ensures { result ≡ sees power.now user.now }
{
    match power {
        Power::Nobody => false,
        Power::Members(group) => same_group(group, &user.record.group),
        Power::Everybody => true,
    }
}

fn is_covered(group: &Option<Name>, user: &UserRecord) -> bool
    ensures { result ≡ covers (Power.Members group.now) user.now }
{
    same_group(group, &user.record.group) && !is_super(user.record.wiz)
}

fn over_all(power: Option<Power>) -> Option<Power>
    ensures { result ≡ option_map over_all power }
{
    match power {
        None => None,
        Some(Power::Everybody) => Some(Power::Everybody),
        Some(Power::Members(_)) | Some(Power::Nobody) => Some(Power::Nobody),
    }
}

fn reached_by_group<'a>(
    group: &Option<Name>,
    target: Option<&'a UserRecord>,
) -> Result<&'a UserRecord, Denial>
    ensures { MatchResult result (λ user.
        reachable (Some (Power.Members group.now)) (option_copied target.entry) ≡ Ok user.now) (λ denial.
        reachable (Some (Power.Members group.now)) (option_copied target.entry) ≡ Err denial) }
{
    match target {
        None => Err(Denial::NoSuch),
        Some(user) => {
            if is_covered(group, user) {
                return Ok(user);
            }
            Err(Denial::NotWizard)
        }
    }
}

// The record that may be changed, or why it may not.
fn reachable<'a>(
    power: &Option<Power>,
    target: Option<&'a UserRecord>,
) -> Result<&'a UserRecord, Denial>
    ensures { MatchResult result (λ user. reachable power.now (option_copied target.entry) ≡ Ok user.now) (λ denial.
        reachable power.now (option_copied target.entry) ≡ Err denial) }
{
    match power {
        None => Err(Denial::NotIn),
        Some(Power::Nobody) => Err(Denial::NotWizard),
        Some(Power::Members(group)) => reached_by_group(group, target),
        Some(Power::Everybody) => target.ok_or(Denial::NoSuch),
    }
}

fn is_name_in(phase: &Phase, name: &Name) -> bool
    ensures { result ≡ is_name_in phase.now name.now }
{
    match phase {
        Phase::In { name: one } => one.text() == name.text(),
        Phase::Idle | Phase::Bogus | Phase::Waiting { .. } => false,
    }
}

fn raised(power: Option<Power>) -> Option<Power>
    ensures { result ≡ option_map (λ p. Power.Everybody) power }
{
    match power {
        None => None,
        Some(_) => Some(Power::Everybody),
    }
}

fn own_power(machine: &MachineRef, session: &Session, name: &Name) -> Option<Power>
    ensures { result ≡ own_power machine.now session.now name.now }
{
    let power = power_of(machine, session);
    if is_name_in(&session.phase, name) {
        return raised(power);
    }
    power
}

// The record of this name, where a wizard may change it.
pub(crate) fn by_wizard<'a>(
    machine: &MachineRef<'a>,
    session: &Session,
    name: &Name,
) -> Result<&'a UserRecord, Denial>
    ensures { MatchResult result (λ user.
        reachable (power_of machine.now session.now) (record_at name.now machine.now.records) ≡ Ok user.now) (λ denial.
        reachable (power_of machine.now session.now) (record_at name.now machine.now.records) ≡ Err denial) }
{
    reachable(
        &power_of(machine, session),
        record_at(machine.records, name),
    )
}

// The record of this name, where its own user or a wizard may change it.
pub(crate) fn by_user<'a>(
    machine: &MachineRef<'a>,
    session: &Session,
    name: &Name,
) -> Result<&'a UserRecord, Denial>
    ensures { MatchResult result (λ user.
        reachable (own_power machine.now session.now name.now) (record_at name.now machine.now.records) ≡ Ok user.now)
        (λ denial. reachable (own_power machine.now session.now name.now) (record_at name.now machine.now.records) ≡
        Err denial) }
{
    reachable(
        &own_power(machine, session, name),
        record_at(machine.records, name),
    )
}

// The record of this name, where a wizard over all may change it.
pub(crate) fn by_super<'a>(
    machine: &MachineRef<'a>,
    session: &Session,
    name: &Name,
) -> Result<&'a UserRecord, Denial>
    ensures { MatchResult result (λ user.
        reachable (option_map over_all (power_of machine.now session.now)) (record_at name.now machine.now.records) ≡
        Ok user.now) (λ denial. reachable (option_map over_all (power_of machine.now session.now)) (record_at name.now
        machine.now.records) ≡ Err denial) }
{
    reachable(
        &over_all(power_of(machine, session)),
        record_at(machine.records, name),
    )
}
