//! Users who come and go.
ghost use Rattle.auth_machine.specs.Powers.{add_user, adds, adds_to, by_wizard, deletes, new_user};
ghost use Rattle.auth_records.specs.Spelling.{fields};
ghost use Rattle.std.specs.Option.{option_copied};
ghost use Rattle.std.specs.Prelude.{◌≡◌};

use crate::change::{Change, stores};
use crate::machine_ref::MachineRef;
use crate::powers::{by_wizard, power_of};
use crate::record_change::{ChallengeChange, RecordChange, SessionChange};
use crate::search::record_at;
use crate::user_record::UserRecord;
use crate::{Power, Session};
use auth_events::{Denial, Reply};
use auth_records::{LongName, Proto, Record, Wiz};
use fw_types::Name;

fn new_user(name: &Name, long: &LongName, group: Option<Name>) -> Record
    ensures { fields result ≡ new_user name.now long.now group }
{
    Record {
        name: name.twin(),
        long: long.twin(),
        group,
        proto: Proto::None,
        enabled: false,
        wiz: Wiz::None,
        fails: 0,
        since: 0,
        last: 0,
        expires: 0,
        plain: None,
        otp: None,
    }
}

fn adds_to(group: Option<Name>, name: &Name, long: &LongName, target: Option<&UserRecord>) -> Change
    ensures { result ≡ adds_to group name.now long.now (option_copied target.entry) }
{
    match target {
        Some(_) => Change::denied(Denial::Exists),
        None => stores(new_user(name, long, group)),
    }
}

fn adds(power: Option<Power>, name: &Name, long: &LongName, target: Option<&UserRecord>) -> Change
    ensures { result ≡ adds power name.now long.now (option_copied target.entry) }
{
    match power {
        None => Change::denied(Denial::NotIn),
        Some(Power::Nobody) => Change::denied(Denial::NotWizard),
        Some(Power::Members(group)) => adds_to(group, name, long, target),
        Some(Power::Everybody) => adds_to(None, name, long, target),
    }
}

// A new user.
#[tactic(auto, unfolding(crate::specs::Powers::add_user))]
pub(crate) fn add_user(
    machine: &MachineRef,
    session: &Session,
    name: &Name,
    long: &LongName,
) -> Change
    ensures { result ≡ add_user machine.now session.now name.now long.now }
{
    let target = record_at(machine.records, name);
    adds(power_of(machine, session), name, long, target)
}

// The record is gone, and so is the challenge of its name.
fn deletes(user: &UserRecord) -> Change
    ensures { result ≡ deletes user.now }
{
    Change {
        reply: Reply::Ok,
        records: RecordChange::Delete(user.record.name.twin()),
        session: SessionChange::Stay,
        challenge: ChallengeChange::Free(user.record.name.twin()),
    }
}

pub(crate) fn deluser(machine: &MachineRef, session: &Session, name: &Name) -> Change
    ensures { result ≡ by_wizard machine.now session.now name.now deletes }
{
    match by_wizard(machine, session, name) {
        Ok(user) => deletes(user),
        Err(denial) => Change::denied(denial),
    }
}
