//! What a wizard sets of a user: whether the user is enabled and until when, the group, the protocol and the power.
ghost use Rattle.auth_machine.specs.Powers.{by_super, by_wizard, disabled, enabled, stores, with_expiry, with_group, with_proto, with_wiz};
ghost use Rattle.std.specs.Prelude.{◌≡◌};

use crate::Session;
use crate::change::{Change, stores};
use crate::machine_ref::MachineRef;
use crate::powers::{by_super, by_wizard, group_twin};
use crate::user_record::UserRecord;
use auth_records::{Proto, Wiz};
use fw_types::Name;

fn enables(user: &UserRecord) -> Change
    ensures { result ≡ stores (enabled user.now) }
{
    let mut record = user.record.twin();
    record.enabled = true;
    record.fails = 0;
    stores(record)
}

pub(crate) fn enable(machine: &MachineRef, session: &Session, name: &Name) -> Change
    ensures { result ≡ by_wizard machine.now session.now name.now (λ f. stores (enabled f)) }
{
    match by_wizard(machine, session, name) {
        Ok(user) => enables(user),
        Err(denial) => Change::denied(denial),
    }
}

fn disables(user: &UserRecord) -> Change
    ensures { result ≡ stores (disabled user.now) }
{
    let mut record = user.record.twin();
    record.enabled = false;
    stores(record)
}

pub(crate) fn disable(machine: &MachineRef, session: &Session, name: &Name) -> Change
    ensures { result ≡ by_wizard machine.now session.now name.now (λ f. stores (disabled f)) }
{
    match by_wizard(machine, session, name) {
        Ok(user) => disables(user),
        Err(denial) => Change::denied(denial),
    }
}

fn sets_group(user: &UserRecord, group: Option<Name>) -> Change
    ensures { result ≡ stores (with_group group user.now) }
{
    let mut record = user.record.twin();
    record.group = group;
    stores(record)
}

pub(crate) fn group(
    machine: &MachineRef,
    session: &Session,
    name: &Name,
    group: &Option<Name>,
) -> Change
    ensures { result ≡ by_super machine.now session.now name.now (λ f. stores (with_group group.now f)) }
{
    match by_super(machine, session, name) {
        Ok(user) => sets_group(user, group_twin(group)),
        Err(denial) => Change::denied(denial),
    }
}

fn sets_proto(user: &UserRecord, proto: Proto) -> Change
    ensures { result ≡ stores (with_proto proto user.now) }
{
    let mut record = user.record.twin();
    record.proto = proto;
    stores(record)
}

pub(crate) fn proto(machine: &MachineRef, session: &Session, name: &Name, proto: Proto) -> Change
    ensures { result ≡ by_wizard machine.now session.now name.now (λ f. stores (with_proto proto f)) }
{
    match by_wizard(machine, session, name) {
        Ok(user) => sets_proto(user, proto),
        Err(denial) => Change::denied(denial),
    }
}

fn sets_expiry(user: &UserRecord, until: u64) -> Change
    ensures { result ≡ stores (with_expiry until user.now) }
{
    let mut record = user.record.twin();
    record.expires = until;
    stores(record)
}

pub(crate) fn expire(machine: &MachineRef, session: &Session, name: &Name, until: u64) -> Change
    ensures { result ≡ by_wizard machine.now session.now name.now (λ f. stores (with_expiry until f)) }
{
    match by_wizard(machine, session, name) {
        Ok(user) => sets_expiry(user, until),
        Err(denial) => Change::denied(denial),
    }
}

fn sets_wiz(user: &UserRecord, wiz: Wiz) -> Change
    ensures { result ≡ stores (with_wiz wiz user.now) }
{
    let mut record = user.record.twin();
    record.wiz = wiz;
    stores(record)
}

pub(crate) fn wiz(machine: &MachineRef, session: &Session, name: &Name, wiz: Wiz) -> Change
    ensures { result ≡ by_super machine.now session.now name.now (λ f. stores (with_wiz wiz f)) }
{
    match by_super(machine, session, name) {
        Ok(user) => sets_wiz(user, wiz),
        Err(denial) => Change::denied(denial),
    }
}
