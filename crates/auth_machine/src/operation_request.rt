//! Asking whether the user may reach a host.
ghost use Rattle.auth_machine.specs.Powers.{asks_operation, operation_by};
ghost use Rattle.std.specs.Prelude.{Some, ◌≡◌};

use crate::change::Change;
use crate::machine_ref::MachineRef;
use crate::powers::user_of;
use crate::user_record::UserRecord;
use crate::{Policy, Session};
use auth_events::{Denial, OpService, Reply};
use fw_types::Host;
use gate_rules::Verdict;

// What the policy decides of an operation of this user at this moment.
fn operation_of(
    policy: &Policy,
    moment: u64,
    user: &UserRecord,
    service: OpService,
    host: &Host,
) -> Change
    ensures { result ≡ operation_by policy.now moment service host.now (Some user.now) }
{
    let verdict = policy.verdict(&user.record.name, &user.record.group, service, host, moment);
    match verdict {
        Verdict::Permit { .. } => Change::only(Reply::Ok),
        Verdict::Deny { line } => Change::denied(Denial::NoRule { line }),
    }
}

#[tactic(auto, unfolding(crate::specs::Powers::asks_operation))]
pub(crate) fn asks_operation(
    policy: &Policy,
    machine: &MachineRef,
    session: &Session,
    service: OpService,
    host: &Host,
) -> Change
    ensures { result ≡ asks_operation policy.now machine.now session.now service host.now }
{
    match user_of(machine, session) {
        None => Change::denied(Denial::NotIn),
        Some(user) => operation_of(policy, machine.moment, user, service, host),
    }
}
