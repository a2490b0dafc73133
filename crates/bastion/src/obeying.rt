//! What the words ask for, by the table: a row for each command.
ghost use Rattle.std.specs.Prelude.{◌≡◌, ◌≤◌, ◌<◌, length, map, true, IsSome};
ghost use Rattle.bastion.specs.Outcome.{fault_line_of};
ghost use Rattle.bastion.specs.Run.{DoesFor, DoesLine, DoesOrder, TellsIf};
ghost use Rattle.bastion.specs.Status.{LeavesMailers, OrderLeavesMailers, is_remote_line};
ghost use Rattle.bastion.specs.Words.{is_remote, line_of};
ghost use Rattle.bastion.specs.WorldView.{post_of};
ghost use Rattle.bastion.specs.declared.words.Command.TheVariants.{Netacl, NetaclRun, Table};
ghost use Rattle.bastion.specs.declared.words.Order.TheVariants.{ByTable};

use crate::authsrv::attend;
use crate::deciding::{decide, show};
use crate::gateways::through;
use crate::jobs::do_job;
use crate::mailing::take_mail;
use crate::plug::plug;
use crate::reading::rules_for;
use crate::starting::decide_run;
use crate::{Command, CommandLine, Kit, Order, Outcome, Query, World};
use fw_mail::Mailer;
use fw_types::Octets;
use std::alloc::Global;
use std::thread::Threads;

// Decides for one service and peer.
fn netacl<T: Kit>(alloc: Global, name: &[u8], query: &Query, world: &mut World<T>) -> Outcome
    ensures { DoesFor name.now (Netacl query.now) result world.old world.new }
{
    match rules_for(alloc, name, &query.service, world) {
        Ok(rules) => decide(alloc, &rules, query, world),
        Err(outcome) => outcome,
    }
}

// Decides for one service and peer, and starts the program of the line that permits.
fn netacl_run<T: Kit>(alloc: Global, name: &[u8], query: &Query, world: &mut World<T>) -> Outcome
    ensures { DoesFor name.now (NetaclRun query.now) result world.old world.new }
{
    match rules_for(alloc, name, &query.service, world) {
        Ok(rules) => decide_run(alloc, &rules, query, world),
        Err(outcome) => outcome,
    }
}

// Shows what the table says to one service of a peer.
fn table<T: Kit>(alloc: Global, name: &[u8], query: &Query, world: &mut World<T>) -> Outcome
    ensures { DoesFor name.now (Table query.now) result world.old world.new }
{
    match rules_for(alloc, name, &query.service, world) {
        Ok(rules) => show(alloc, &rules, query, world),
        Err(outcome) => outcome,
    }
}

// Does the work of a command, by the table with this name.
fn work<H, T>(
    rt: &H,
    alloc: Global,
    name: &[u8],
    command: &Command,
    world: &mut World<T>,
) -> Outcome
where
    H: Threads + Sync,
    T: Kit,
    requires keeper { IsSome world.old.inputs.keeper }
    requires disks { length world.old.inputs.disks ≤ 64 }
    requires remote { is_remote (ByTable command.now) ≡ true → IsSome world.old.inputs.remote }
    ensures { DoesFor name.now command.now result world.old world.new }
{
    match command {
        Command::Netacl(query) => netacl(alloc, name, query, world),
        Command::NetaclRun(query) => netacl_run(alloc, name, query, world),
        Command::Table(query) => table(alloc, name, query, world),
        Command::Authsrv(client) => attend(rt, alloc, name, client, world),
        Command::PlugGw(caller) => plug(rt, alloc, name, caller, world),
        Command::Gateway {
            kind,
            authorities,
            peer,
        } => through(rt, alloc, name, *kind, *authorities, peer, world),
        Command::Smap(peer) => take_mail(rt, alloc, name, peer, world),
    }
}

// Does what is ordered, by the table with this name or without.
fn do_order<H, T>(
    rt: &H,
    alloc: Global,
    name: &[u8],
    order: &Order,
    mailers: &mut Vec<Box<dyn Mailer>>,
    world: &mut World<T>,
) -> Outcome
where
    H: Threads + Sync,
    T: Kit,
    requires keeper { IsSome world.old.inputs.keeper }
    requires disks { length world.old.inputs.disks ≤ 64 }
    requires remote { is_remote order.now ≡ true → IsSome world.old.inputs.remote }
    requires some { 0 < length mailers.old.items }
    ensures does { DoesOrder (post_of (map (λ m. mailer_view m) mailers.old.items) (map (λ m. mailer_view m) mailers.new.items))
        name.now order.now result world.old world.new }
    ensures mailers { OrderLeavesMailers (post_of (map (λ m. mailer_view m) mailers.old.items) (map (λ m. mailer_view m) mailers.new.items)) order.now }
{
    match order {
        Order::ByTable(command) => work(rt, alloc, name, command, world),
        Order::Alone(job) => do_job(alloc, job, mailers, world),
    }
}

/// Does what the words ask for.
pub(crate) fn obey<H, T>(
    rt: &H,
    alloc: Global,
    words: &[Octets],
    mailers: &mut Vec<Box<dyn Mailer>>,
    world: &mut World<T>,
) -> Outcome
where
    H: Threads + Sync,
    T: Kit,
    requires keeper { IsSome world.old.inputs.keeper }
    requires disks { length world.old.inputs.disks ≤ 64 }
    requires remote { is_remote_line (line_of words.now) ≡ true → IsSome world.old.inputs.remote }
    requires some { 0 < length mailers.old.items }
    ensures does { DoesLine (post_of (map (λ m. mailer_view m) mailers.old.items) (map (λ m. mailer_view m) mailers.new.items))
        (line_of words.now) result world.old world.new }
    ensures mailers { LeavesMailers (post_of (map (λ m. mailer_view m) mailers.old.items) (map (λ m. mailer_view m) mailers.new.items))
        (line_of words.now) }
{
    match CommandLine::read(words) {
        Some(line) => do_order(rt, alloc, line.table, &line.order, mailers, world),
        None => Outcome::Usage,
    }
}

/// Gives the log the outcome's line, if it has one. A line that can't be written changes nothing.
pub fn tell<T: Kit>(world: &mut World<T>, outcome: &Outcome)
    ensures { TellsIf (fault_line_of outcome.now) world.old world.new }
{
    if let Some(line) = outcome.fault_line() {
        let _ = world.log(line.as_slice());
    }
}
