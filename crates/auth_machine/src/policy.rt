ghost use Rattle.std.specs.Prelude.{◌≡◌, is_ok, Ok, IfOk, IfErr, IsTrue};
ghost use Rattle.auth_machine.specs.Operations.{operation_verdict};
ghost use Rattle.auth_machine.specs.Policy.{HasEach, is_one, policy_of};
ghost use Rattle.gate_rules.specs.Reading.{IsFaultIn, rules_of};
ghost use Rattle.gate_rules.specs.declared.service.Service.TheVariants.{Authsrv};

use crate::operation::OperationLine;
use crate::operations::{operation_lines, operation_verdict};
use auth_events::OpService;
use fw_types::{Host, Name, NoMemory};
use gate_rules::{Rules, RulesFault, Service, Setting, Verdict};
use netperm_table::Table;
use std::alloc::Global;
use std::marker::Model;

/// What the table says to the authentication server: how long a user sleeps after too many failures, whether unknown
/// users are told so, and who may do which operation.
#[derive(Drop)]
pub struct Policy {
    bad_sleep: Option<u64>,
    no_bogus: bool,
    operations: Vec<OperationLine>,
}

impl Model for Policy {
    ghost use Rattle.auth_machine.specs.Policy.{PolicyView};

    ghost Value = { PolicyView };

    ghost view = { λ policy. record {
      bad_sleep = policy.bad_sleep;
      no_bogus = policy.no_bogus;
      operations =
          policy.operations.items;
    } };
}

fn is_one(set: Option<(u64, u32)>) -> bool
    ensures { result ≡ is_one set }
{
    match set {
        Some((value, _)) => value == 1,
        None => false,
    }
}

impl Policy {
    /// What the table says to the authentication server.
    ///
    /// # Errors
    ///
    /// `Rule` with the first line of `authsrv` that can't be read, whatever it is about, and the cause of its leftmost
    /// bad word. Or `NoMemory`, only where each of those lines can be read.
    pub fn of(alloc: Global, table: &Table) -> Result<Policy, RulesFault>
        ensures ok { IfOk result (λ policy. policy_of table.now ≡ Ok policy) }
        ensures each { IfOk result (HasEach table.now) }
        ensures fault { IfErr result (IsFaultIn (rules_of Authsrv table.now)) }
        ensures memory { IfErr result (λ e. e ≡ RulesFault.NoMemory →
            IsTrue (is_ok (rules_of Authsrv table.now))) }
    {
        let rules = Rules::of(alloc, table, &Service::Authsrv)?;
        Ok(Policy::beside(alloc, table, &rules)?)
    }

    /// The same for a table whose rules for the server were read, so that its lines aren't read again for faults.
    ///
    /// # Errors
    ///
    /// `NoMemory`.
    pub fn beside(alloc: Global, table: &Table, rules: &Rules) -> Result<Policy, NoMemory>
        requires { rules_of Authsrv table.now ≡ Ok rules.now }
        ensures ok { IfOk result (λ policy. policy_of table.now ≡ Ok policy) }
        ensures each { IfOk result (HasEach table.now) }
    {
        let operations = operation_lines(alloc, table.lines())?;
        Ok(Policy {
            bad_sleep: rules.setting(Setting::BadSleep).map(|set| set.0),
            no_bogus: is_one(rules.setting(Setting::NoBogus)),
            operations,
        })
    }

    /// How many seconds a user sleeps after too many failures, or nothing where no line says so.
    pub fn bad_sleep(&self) -> Option<u64>
        ensures { result ≡ self.now.bad_sleep }
    {
        self.bad_sleep
    }

    /// Whether unknown users are told so.
    pub fn no_bogus(&self) -> bool
        ensures { result ≡ self.now.no_bogus }
    {
        self.no_bogus
    }

    /// What is decided of an operation that a user of a group, if any, asks for at this moment, in seconds: the first
    /// line that fits and is open then decides, and where there is none it is denied by line 0. It takes no memory.
    pub fn verdict(
        &self,
        user: &Name,
        group: &Option<Name>,
        service: OpService,
        host: &Host,
        moment: u64,
    ) -> Verdict
        ensures { result ≡ operation_verdict self.now.operations user.now group.now service host.now moment }
    {
        operation_verdict(&self.operations, user, group, service, host, moment)
    }
}
