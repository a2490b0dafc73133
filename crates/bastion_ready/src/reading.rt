//! From the files to what the table says of a server's services.
ghost use Rattle.std.specs.Prelude.{◌≡◌, ◌++◌, ◌∷◌, [], IfErr, IfOk, OnOk, Ok, Err};
ghost use Rattle.bastion.specs.Reading.{Finds, ReadsLines};
ghost use Rattle.bastion_ready.specs.Inputs.{AddsRules, IsSaidOf, rules_of_each, site_rules_of};
ghost use Rattle.bastion.specs.declared.outcome.Outcome.TheVariants.{NoMemory};
ghost use Rattle.bastion.specs.declared.outcome.Step.TheVariants as steps;
ghost use Rattle.gate_rules.specs.Reading.{rules_of};

use auth_machine::Policy;
use bastion::{Kit, Outcome, Step, World, read_policy, read_rules, read_table};
use fw_outside::Files;
use gate_rules::{Rules, Service};
use netperm_table::Table;
use std::alloc::Global;
use std::marker::Model;

/// Services with their rules.
#[derive(Drop)]
pub(crate) struct Ruled {
    pub(crate) rules: Vec<(Service, Rules)>,
}

impl Model for Ruled {
    ghost use Rattle.std.specs.Prelude.{List};
    ghost use Rattle.gate_rules.specs.Reading.{RuleBook};
    ghost use Rattle.gate_rules.specs.declared.service.Service.{Service as Named};

    ghost Value = { List (Named × RuleBook) };

    ghost view = { λ ruled. ruled.rules.items };
}

/// The rules of each service, and what the authentication server goes by.
#[derive(Drop)]
pub(crate) struct SiteRules {
    pub(crate) ruled: Ruled,
    pub(crate) policy: Policy,
}

impl Model for SiteRules {
    ghost use Rattle.bastion_ready.specs.Inputs.{SiteRules as SiteView};

    ghost Value = { SiteView };

    ghost view = { λ site. record { rules = site.ruled; policy = site.policy } };
}

// Adds these rules of a service.
fn push_rules(
    rules: &mut Vec<(Service, Rules)>,
    service: &Service,
    said: Rules,
) -> Result<(), Outcome>
    ensures adds { OnOk result (rules.new.items ≡ rules.old.items ++ (service.now, said) ∷ []) }
    ensures lacks { IfErr result (λ outcome. outcome ≡ NoMemory steps.Rules) }
{
    match rules.push((service.twin(), said)) {
        Ok(()) => Ok(()),
        Err(_) => Err(Outcome::NoMemory(Step::Rules)),
    }
}

// Reads the rules of a service, and adds them.
fn add_rules(
    alloc: Global,
    table: &Table,
    service: &Service,
    rules: &mut Vec<(Service, Rules)>,
) -> Result<(), Outcome>
    ensures adds { OnOk result (AddsRules service.now table.now rules.old.items rules.new.items) }
    ensures stops { IfErr result (λ outcome. ReadsLines (rules_of service.now table.now) (Err outcome)) }
{
    match read_rules(alloc, table, service) {
        Ok(said) => push_rules(rules, service, said),
        Err(outcome) => Err(outcome),
    }
}

// The rules of each service, in order.
fn read_each(alloc: Global, table: &Table, mut services: &[Service]) -> Result<Ruled, Outcome>
    ensures { ReadsLines (rules_of_each services.now table.now) result }
{
    let mut rules = Vec::new(alloc);
    while let [service, more @ ..] = services {
        match add_rules(alloc, table, service, &mut rules) {
            Ok(()) => services = more,
            Err(outcome) => return Err(outcome),
        }
    }
    Ok(Ruled { rules })
}

// These rules of the services, and what the authentication server goes by.
fn with_policy(
    alloc: Global,
    table: &Table,
    services: &[Service],
    ruled: Ruled,
) -> Result<SiteRules, Outcome>
    requires { rules_of_each services.now table.now ≡ Ok ruled }
    ensures { ReadsLines (site_rules_of services.now table.now) result }
{
    match read_policy(alloc, table) {
        Ok(policy) => Ok(SiteRules { ruled, policy }),
        Err(outcome) => Err(outcome),
    }
}

fn read_both(alloc: Global, table: &Table, services: &[Service]) -> Result<SiteRules, Outcome>
    ensures { ReadsLines (site_rules_of services.now table.now) result }
{
    match read_each(alloc, table, services) {
        Ok(ruled) => with_policy(alloc, table, services, ruled),
        Err(outcome) => Err(outcome),
    }
}

// What the table with this name says of the services.
fn find_site<F: Files>(
    alloc: Global,
    files: &mut F,
    name: &[u8],
    services: &[Service],
) -> Result<SiteRules, Outcome>
    ensures found { Finds (site_rules_of services.now) name.now result (F.files_view files.old)
        (F.files_view files.new) }
    ensures said { IfOk result (IsSaidOf services.now) }
{
    match read_table(alloc, files, name) {
        Ok(table) => read_both(alloc, &table, services),
        Err(outcome) => Err(outcome),
    }
}

/// What the table with this name says of the services. Only the files are asked.
pub(crate) fn site_for<T: Kit>(
    alloc: Global,
    name: &[u8],
    services: &[Service],
    world: &mut World<T>,
) -> Result<SiteRules, Outcome>
    ensures found { Finds (site_rules_of services.now) name.now result world.old.files world.new.files }
    ensures said { IfOk result (IsSaidOf services.now) }
    ensures output { world.new.output ≡ world.old.output }
    ensures logs { world.new.logs ≡ world.old.logs }
    ensures inputs { world.new.inputs ≡ world.old.inputs }
{
    find_site(alloc, &mut world.files, name, services)
}
