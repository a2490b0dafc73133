//! The commands `tn-gw` and `ftp-gw`: a client of a gateway is served over the book of the records, or over a port to an
//! authentication server elsewhere.
ghost use Rattle.std.specs.Prelude.{◌≡◌, IsSome, None, Some};
ghost use Rattle.client_service.specs.Conn.{Conn, IsServed, Untouched};
ghost use Rattle.remote_port.specs.Texts.{RemoteTexts};
ghost use Rattle.bastion.specs.Answering.{answerer_of};
ghost use Rattle.bastion.specs.Gating.{devices_over};
ghost use Rattle.bastion.specs.Run.{DoesFor};
ghost use Rattle.bastion.specs.SessionSteps.{PassesLink, PassesOver};
ghost use Rattle.bastion.specs.Gateways.{gateway_service};
ghost use Rattle.bastion.specs.declared.words.Authorities.TheVariants.{Records, Remote};
ghost use Rattle.bastion.specs.declared.words.Command.TheVariants.{Gateway};
ghost use Rattle.gate_rules.specs.Verdict.{verdict_of};

use crate::book::{end_over, open_for};
use crate::reading::rules_for;
use crate::{Authorities, GatewayKind, Kit, Outcome, World};
use auth_events::AuthPort;
use auth_machine::Book;
use client_service::conn;
use fw_types::{Ending, Peer};
use gate_rules::{Rules, Service};
use remote_port::RemotePort;
use session_acts::NoStore;
use std::alloc::Global;
use std::thread::Threads;

// A client whom the rules permit or deny. What it asks is asked at this port.
fn pass<H, P, T>(
    rt: &H,
    alloc: Global,
    service: &Service,
    rules: &Rules,
    peer: &Peer,
    port: &mut P,
    world: &mut World<T>,
) -> Ending
where
    H: Threads + Sync,
    P: AuthPort,
    T: Kit,
    requires served { IsServed service.now rules.now }
    ensures conn { Conn service.now rules.now peer.now (devices_over world.old (P.port port.old))
        (devices_over world.new (P.port port.new)) result }
    ensures untouched { Untouched service.now (verdict_of rules.now peer.now) port.old port.new }
    ensures files { world.new.files ≡ world.old.files }
    ensures keeper { world.new.inputs.keeper ≡ world.old.inputs.keeper }
    ensures launcher { world.new.inputs.launcher ≡ world.old.inputs.launcher }
    ensures disks { world.new.inputs.disks ≡ world.old.inputs.disks }
    ensures remote { world.new.inputs.remote ≡ world.old.inputs.remote }
{
    let mut store = NoStore;
    conn(
        rt,
        alloc,
        service,
        rules,
        peer,
        port,
        &mut world.input,
        &mut world.output,
        &mut world.logs,
        &mut world.dialer,
        &mut store,
        &mut world.clock,
        &mut world.dice,
    )
}

// Serves the client over this book, and gives its keeper back.
fn pass_over<H, T>(
    rt: &H,
    alloc: Global,
    service: &Service,
    rules: &Rules,
    peer: &Peer,
    book: Book<T::Keeper>,
    world: &mut World<T>,
) -> Outcome
where
    H: Threads + Sync,
    T: Kit,
    requires served { IsServed service.now rules.now }
    ensures { PassesOver service.now peer.now rules.now book result world.old world.new }
{
    let mut book = book;
    let ending = pass(rt, alloc, service, rules, peer, &mut book, world);
    end_over(book, ending, world)
}

// Takes both ends of the link out of the world.
fn take_ends<T: Kit>(world: &mut World<T>) -> (T::AuthIn, T::AuthOut)
    requires remote { IsSome world.old.inputs.remote }
    ensures there { world.old.inputs.remote
        ≡ Some (record { source = T.AuthIn.source_view result.0; sink = T.AuthOut.sink_view result.1 }) }
    ensures is { world.new ≡ record world.old { inputs = record (world.old.inputs) { remote = None } } }
{
    let Some(ends) = world.remote.take() else {
        unreachable!()
    };
    ends
}

// Puts both ends of this port into the world.
fn put_ends<T: Kit>(port: RemotePort<T::AuthIn, T::AuthOut>, world: &mut World<T>)
    ensures texts { RemoteTexts port }
    ensures is { world.new ≡ record world.old { inputs = record (world.old.inputs) { remote = Some (answerer_of Remote port) } } }
{
    world.remote = Some(port.into_ends());
}

// Serves the client over the link to a server elsewhere, and gives both ends back.
fn pass_link<H, T>(
    rt: &H,
    alloc: Global,
    service: &Service,
    rules: &Rules,
    peer: &Peer,
    world: &mut World<T>,
) -> Outcome
where
    H: Threads + Sync,
    T: Kit,
    requires served { IsServed service.now rules.now }
    requires remote { IsSome world.old.inputs.remote }
    ensures { PassesLink service.now peer.now rules.now result world.old world.new }
{
    let (from, to) = take_ends(world);
    let mut port = RemotePort::new(alloc, from, to);
    let ending = pass(rt, alloc, service, rules, peer, &mut port, world);
    let refused = port.refused();
    put_ends(port, world);
    Outcome::Ended { ending, refused }
}

fn service_of(kind: GatewayKind) -> Service
    ensures { result ≡ gateway_service kind }
{
    match kind {
        GatewayKind::Telnet => Service::TnGw,
        GatewayKind::Ftp => Service::FtpGw,
    }
}

// A client whose user the records of this host know.
fn through_records<H, T>(
    rt: &H,
    alloc: Global,
    name: &[u8],
    kind: GatewayKind,
    peer: &Peer,
    world: &mut World<T>,
) -> Outcome
where
    H: Threads + Sync,
    T: Kit,
    requires keeper { IsSome world.old.inputs.keeper }
    ensures { DoesFor name.now (Gateway kind Records peer.now) result world.old world.new }
{
    let service = service_of(kind);
    match open_for(alloc, name, &service, world) {
        Ok((rules, book)) => pass_over(rt, alloc, &service, &rules, peer, book, world),
        Err(outcome) => outcome,
    }
}

// A client whose user a server elsewhere knows.
fn through_link<H, T>(
    rt: &H,
    alloc: Global,
    name: &[u8],
    kind: GatewayKind,
    peer: &Peer,
    world: &mut World<T>,
) -> Outcome
where
    H: Threads + Sync,
    T: Kit,
    requires remote { IsSome world.old.inputs.remote }
    ensures { DoesFor name.now (Gateway kind Remote peer.now) result world.old world.new }
{
    let service = service_of(kind);
    match rules_for(alloc, name, &service, world) {
        Ok(rules) => pass_link(rt, alloc, &service, &rules, peer, world),
        Err(outcome) => outcome,
    }
}

/// A client of a gateway.
pub(crate) fn through<H, T>(
    rt: &H,
    alloc: Global,
    name: &[u8],
    kind: GatewayKind,
    authorities: Authorities,
    peer: &Peer,
    world: &mut World<T>,
) -> Outcome
where
    H: Threads + Sync,
    T: Kit,
    requires keeper { IsSome world.old.inputs.keeper }
    requires remote { authorities ≡ Remote → IsSome world.old.inputs.remote }
    ensures { DoesFor name.now (Gateway kind authorities peer.now) result world.old world.new }
{
    match authorities {
        Authorities::Records => through_records(rt, alloc, name, kind, peer, world),
        Authorities::Remote => through_link(rt, alloc, name, kind, peer, world),
    }
}
