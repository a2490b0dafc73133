//! What the rules of a service decide, logged and printed.
ghost use Rattle.std.specs.Prelude.{◌≡◌};
ghost use Rattle.gate_rules.specs.Verdict.{verdict_of};
ghost use Rattle.gate_rules.specs.declared.verdict.Verdict.TheVariants.{Permit};
ghost use Rattle.bastion.specs.Deciding.{Decides, Permits, Reports, Reveals};
ghost use Rattle.bastion.specs.Works.{Announced, Shown, announced, shown};

use crate::table_report::{denial_report, permit_report};
use crate::texts::{permit_print, verdict_text};
use crate::{Device, Kit, Outcome, Query, Step, World};
use client_service::{decision_line, verdict_of};
use fw_outside::Failed;
use gate_rules::{Rules, Verdict};
use std::alloc::Global;

// What comes of a verdict that was logged: a denial stands, since the log has it.
fn announced(verdict: Verdict, printing: Result<(), Failed>) -> Outcome
    ensures { result ≡ announced verdict printing }
{
    match printing {
        Ok(()) => Outcome::Decided(verdict),
        Err(Failed) => match verdict {
            Verdict::Permit { .. } => Outcome::Failed(Device::Output),
            Verdict::Deny { .. } => Outcome::Decided(verdict),
        },
    }
}

pub(crate) fn shown(verdict: Verdict, printing: Result<(), Failed>) -> Outcome
    ensures { result ≡ shown verdict printing }
{
    match printing {
        Ok(()) => Outcome::Decided(verdict),
        Err(Failed) => Outcome::Failed(Device::Output),
    }
}

// Logs a verdict and then prints this text of it.
pub(crate) fn announce<T: Kit>(
    world: &mut World<T>,
    verdict: Verdict,
    query: &Query,
    text: &[u8],
) -> Outcome
    ensures { Announced query.now verdict text.now result world.old world.new }
{
    let line = decision_line(verdict, &query.service, &query.peer);
    match world.log(line.as_slice()) {
        Ok(()) => announced(verdict, world.print(text)),
        Err(Failed) => Outcome::Failed(Device::Log),
    }
}

// Logs a permission and then prints it, with the program's words.
fn permit<T: Kit>(
    alloc: Global,
    rules: &Rules,
    line: u32,
    query: &Query,
    world: &mut World<T>,
) -> Outcome
    ensures { Permits query.now (Permit line) rules.now result world.old world.new }
{
    let Ok(text) = permit_print(alloc, rules, line) else {
        return Outcome::NoMemory(Step::Print);
    };
    announce(world, Verdict::Permit { line }, query, text.bytes())
}

/// Takes the verdict of the rules, logs it and then prints it. A denial takes no memory.
pub(crate) fn decide<T: Kit>(
    alloc: Global,
    rules: &Rules,
    query: &Query,
    world: &mut World<T>,
) -> Outcome
    ensures { Decides query.now (verdict_of rules.now query.now.peer) rules.now result world.old world.new }
{
    let verdict = verdict_of(rules, &query.peer);
    match verdict {
        Verdict::Permit { line } => permit(alloc, rules, line, query, world),
        Verdict::Deny { .. } => announce(world, verdict, query, verdict_text(verdict).as_slice()),
    }
}

// Prints this text of a verdict.
fn show_text<T: Kit>(world: &mut World<T>, verdict: Verdict, text: &[u8]) -> Outcome
    ensures { Shown verdict text.now result world.old world.new }
{
    shown(verdict, world.print(text))
}

// Prints a permission, the options of its line, and the settings.
fn show_permit<T: Kit>(alloc: Global, rules: &Rules, line: u32, world: &mut World<T>) -> Outcome
    ensures { Reveals (Permit line) rules.now result world.old world.new }
{
    let Ok(text) = permit_report(alloc, rules, line) else {
        return Outcome::NoMemory(Step::Print);
    };
    show_text(world, Verdict::Permit { line }, text.bytes())
}

/// Prints the verdict of the rules, the options of a line that permits, and the settings. A denial takes no memory.
pub(crate) fn show<T: Kit>(
    alloc: Global,
    rules: &Rules,
    query: &Query,
    world: &mut World<T>,
) -> Outcome
    ensures { Reports (verdict_of rules.now query.now.peer) rules.now result world.old world.new }
{
    let verdict = verdict_of(rules, &query.peer);
    match verdict {
        Verdict::Permit { line } => show_permit(alloc, rules, line, world),
        Verdict::Deny { line } => {
            show_text(world, verdict, denial_report(rules, line).as_slice())
        }
    }
}
