//! From the files to the rules of a service.
ghost use Rattle.std.specs.Prelude.{◌≡◌, IfOk, Ok};
ghost use Rattle.client_service.specs.PlugService.{AreRulesOf};
ghost use Rattle.auth_machine.specs.Policy.{policy_of};
ghost use Rattle.bastion.specs.Reading.{Finds, ReadsLines, ReadsTable, reading_fault, server_rules_of};
ghost use Rattle.gate_rules.specs.Reading.{rules_of};

use crate::server_rules::ServerRules;
use crate::{Device, Kit, Outcome, Refusal, Step, World};
use auth_machine::Policy;
use fw_outside::Files;
use gate_rules::{Rules, RulesFault, Service};
use netperm_table::{Table, TableFault};
use std::alloc::Global;

fn reading_fault(fault: TableFault) -> Outcome
    ensures { result ≡ reading_fault fault }
{
    match fault {
        TableFault::ReadFault => Outcome::Failed(Device::Table),
        TableFault::NoMemory => Outcome::NoMemory(Step::Table),
        _ => Outcome::Unread(Refusal::Table(fault)),
    }
}

/// The lines of the table of this name.
pub fn read_table<F: Files>(alloc: Global, files: &mut F, name: &[u8]) -> Result<Table, Outcome>
    ensures { ReadsTable name.now result (F.files_view files.old) (F.files_view files.new) }
{
    let Some(mut source) = files.source(name) else {
        return Err(Outcome::Failed(Device::Table));
    };
    let read = Table::read(alloc, &mut source);
    files.back(source);
    match read {
        Ok(table) => Ok(table),
        Err(fault) => Err(reading_fault(fault)),
    }
}

/// The rules of a service, by the lines of a table.
pub fn read_rules(alloc: Global, table: &Table, service: &Service) -> Result<Rules, Outcome>
    ensures lines { ReadsLines (rules_of service.now table.now) result }
    ensures ruled { IfOk result (AreRulesOf service.now) }
{
    match Rules::of(alloc, table, service) {
        Ok(rules) => Ok(rules),
        Err(RulesFault::Rule(fault)) => Err(Outcome::Unread(Refusal::Rule(fault))),
        Err(RulesFault::NoMemory) => Err(Outcome::NoMemory(Step::Rules)),
    }
}

/// What the authentication server goes by.
pub fn read_policy(alloc: Global, table: &Table) -> Result<Policy, Outcome>
    ensures { ReadsLines (policy_of table.now) result }
{
    match Policy::of(alloc, table) {
        Ok(policy) => Ok(policy),
        Err(RulesFault::Rule(fault)) => Err(Outcome::Unread(Refusal::Rule(fault))),
        Err(RulesFault::NoMemory) => Err(Outcome::NoMemory(Step::Policy)),
    }
}

// These rules of a service, and what the authentication server goes by.
fn with_policy(
    alloc: Global,
    table: &Table,
    service: &Service,
    rules: Rules,
) -> Result<ServerRules, Outcome>
    requires { rules_of service.now table.now ≡ Ok rules }
    ensures { ReadsLines (server_rules_of service.now table.now) result }
{
    match read_policy(alloc, table) {
        Ok(policy) => Ok(ServerRules { rules, policy }),
        Err(outcome) => Err(outcome),
    }
}

fn read_both(alloc: Global, table: &Table, service: &Service) -> Result<ServerRules, Outcome>
    ensures { ReadsLines (server_rules_of service.now table.now) result }
{
    match read_rules(alloc, table, service) {
        Ok(rules) => with_policy(alloc, table, service, rules),
        Err(outcome) => Err(outcome),
    }
}

// The rules that the table with this name has for a service.
fn find_rules<F: Files>(
    alloc: Global,
    files: &mut F,
    name: &[u8],
    service: &Service,
) -> Result<Rules, Outcome>
    ensures found { Finds (rules_of service.now) name.now result (F.files_view files.old) (F.files_view
        files.new) }
    ensures ruled { IfOk result (AreRulesOf service.now) }
{
    match read_table(alloc, files, name) {
        Ok(table) => read_rules(alloc, &table, service),
        Err(outcome) => Err(outcome),
    }
}

/// The rules of a service, which only the files are asked for.
pub(crate) fn rules_for<T: Kit>(
    alloc: Global,
    name: &[u8],
    service: &Service,
    world: &mut World<T>,
) -> Result<Rules, Outcome>
    ensures found { Finds (rules_of service.now) name.now result world.old.files world.new.files }
    ensures ruled { IfOk result (AreRulesOf service.now) }
    ensures output { world.new.output ≡ world.old.output }
    ensures logs { world.new.logs ≡ world.old.logs }
    ensures inputs { world.new.inputs ≡ world.old.inputs }
{
    find_rules(alloc, &mut world.files, name, service)
}

// What the table with this name says of a service whose sessions stand on the users' records.
fn find_server_rules<F: Files>(
    alloc: Global,
    files: &mut F,
    name: &[u8],
    service: &Service,
) -> Result<ServerRules, Outcome>
    ensures { Finds (server_rules_of service.now) name.now result (F.files_view files.old) (F.files_view
        files.new) }
{
    match read_table(alloc, files, name) {
        Ok(table) => read_both(alloc, &table, service),
        Err(outcome) => Err(outcome),
    }
}

/// The rules of a service, and what the authentication server goes by. Only the files are asked.
pub(crate) fn server_rules_for<T: Kit>(
    alloc: Global,
    name: &[u8],
    service: &Service,
    world: &mut World<T>,
) -> Result<ServerRules, Outcome>
    ensures found { Finds (server_rules_of service.now) name.now result world.old.files world.new.files }
    ensures output { world.new.output ≡ world.old.output }
    ensures logs { world.new.logs ≡ world.old.logs }
    ensures inputs { world.new.inputs ≡ world.old.inputs }
{
    find_server_rules(alloc, &mut world.files, name, service)
}
