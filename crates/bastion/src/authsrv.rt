//! The command `authsrv`: a client is served over the book of the records.
ghost use Rattle.std.specs.Prelude.{◌≡◌, IsSome};
ghost use Rattle.client_service.specs.Conn.{AtConsole, Conn, Untouched};
ghost use Rattle.bastion.specs.Run.{DoesFor};
ghost use Rattle.bastion.specs.Serving.{Serves, UntouchedAt, devices_at};
ghost use Rattle.bastion.specs.SessionSteps.{HoldsOver, IsUndialed};
ghost use Rattle.bastion.specs.declared.words.Command.TheVariants.{Authsrv};
ghost use Rattle.gate_rules.specs.Verdict.{verdict_of};
ghost use Rattle.gate_rules.specs.declared.service.Service.TheVariants as services;

use crate::book::{end_over, open_for};
use crate::{Client, Kit, Outcome, World};
use auth_machine::Book;
use client_service::{conn, console};
use fw_types::{Ending, Peer};
use gate_rules::{Rules, Service};
use session_acts::{NoStore, Nowhere};
use std::alloc::Global;
use std::thread::Threads;

// A session at the console.
fn hold_at_console<T: Kit>(
    peer: &Peer,
    book: &mut Book<T::Keeper>,
    world: &mut World<T>,
    dialer: &mut Nowhere,
) -> Ending
    ensures at_console { AtConsole services.Authsrv peer.now (devices_at world.old book.old dialer.old)
        (devices_at world.new book.new dialer.new) result }
    ensures files { world.new.files ≡ world.old.files }
    ensures keeper { world.new.inputs.keeper ≡ world.old.inputs.keeper }
    ensures links { world.new.inputs.dialer ≡ world.old.inputs.dialer }
    ensures launcher { world.new.inputs.launcher ≡ world.old.inputs.launcher }
    ensures disks { world.new.inputs.disks ≡ world.old.inputs.disks }
    ensures remote { world.new.inputs.remote ≡ world.old.inputs.remote }
{
    console(
        &Service::Authsrv,
        peer,
        book,
        &mut world.input,
        &mut world.output,
        &mut world.logs,
        dialer,
        &mut world.clock,
        &mut world.dice,
    )
}

// A client whom the rules permit or deny.
fn hold_by_rules<H, T>(
    rt: &H,
    alloc: Global,
    rules: &Rules,
    peer: &Peer,
    book: &mut Book<T::Keeper>,
    world: &mut World<T>,
    dialer: &mut Nowhere,
) -> Ending
where
    H: Threads + Sync,
    T: Kit,
    ensures conn { Conn services.Authsrv rules.now peer.now (devices_at world.old book.old dialer.old)
        (devices_at world.new book.new dialer.new) result }
    ensures untouched { Untouched services.Authsrv (verdict_of rules.now peer.now) book.old book.new }
    ensures files { world.new.files ≡ world.old.files }
    ensures keeper { world.new.inputs.keeper ≡ world.old.inputs.keeper }
    ensures links { world.new.inputs.dialer ≡ world.old.inputs.dialer }
    ensures launcher { world.new.inputs.launcher ≡ world.old.inputs.launcher }
    ensures disks { world.new.inputs.disks ≡ world.old.inputs.disks }
    ensures remote { world.new.inputs.remote ≡ world.old.inputs.remote }
{
    let mut store = NoStore;
    conn(
        rt,
        alloc,
        &Service::Authsrv,
        rules,
        peer,
        book,
        &mut world.input,
        &mut world.output,
        &mut world.logs,
        dialer,
        &mut store,
        &mut world.clock,
        &mut world.dice,
    )
}

fn hold<H, T>(
    rt: &H,
    alloc: Global,
    rules: &Rules,
    client: &Client,
    book: &mut Book<T::Keeper>,
    world: &mut World<T>,
    dialer: &mut Nowhere,
) -> Ending
where
    H: Threads + Sync,
    T: Kit,
    ensures serves { Serves client.now.console rules.now client.now.peer (devices_at world.old book.old dialer.old)
        (devices_at world.new book.new dialer.new) result }
    ensures undialed { IsUndialed dialer.old dialer.new }
    ensures untouched { UntouchedAt client.now.console (verdict_of rules.now client.now.peer) book.old book.new }
    ensures files { world.new.files ≡ world.old.files }
    ensures keeper { world.new.inputs.keeper ≡ world.old.inputs.keeper }
    ensures links { world.new.inputs.dialer ≡ world.old.inputs.dialer }
    ensures launcher { world.new.inputs.launcher ≡ world.old.inputs.launcher }
    ensures disks { world.new.inputs.disks ≡ world.old.inputs.disks }
    ensures remote { world.new.inputs.remote ≡ world.old.inputs.remote }
{
    if client.console {
        return hold_at_console(&client.peer, book, world, dialer);
    }
    hold_by_rules(rt, alloc, rules, &client.peer, book, world, dialer)
}

// Holds the session over this book, and gives its keeper back. No server is met.
fn hold_over<H, T>(
    rt: &H,
    alloc: Global,
    rules: &Rules,
    client: &Client,
    book: Book<T::Keeper>,
    world: &mut World<T>,
) -> Outcome
where
    H: Threads + Sync,
    T: Kit,
    ensures { HoldsOver client.now rules.now book result world.old world.new }
{
    let mut book = book;
    let mut dialer = Nowhere::new();
    let ending = hold(rt, alloc, rules, client, &mut book, world, &mut dialer);
    end_over(book, ending, world)
}

/// A client of the authentication server, or a session at its console.
pub(crate) fn attend<H, T>(
    rt: &H,
    alloc: Global,
    name: &[u8],
    client: &Client,
    world: &mut World<T>,
) -> Outcome
where
    H: Threads + Sync,
    T: Kit,
    requires keeper { IsSome world.old.inputs.keeper }
    ensures { DoesFor name.now (Authsrv client.now) result world.old world.new }
{
    match open_for(alloc, name, &Service::Authsrv, world) {
        Ok((rules, book)) => hold_over(rt, alloc, &rules, client, book, world),
        Err(outcome) => outcome,
    }
}
