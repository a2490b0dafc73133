//! The book, and what is done with it.

use crate::gateway;
use crate::setup::Setup;
use auth_events::{AuthPort, Entry, PortFault, Reply, Request};
use auth_machine::{Book, OpenFault, Policy};
use auth_port::FaultyPort;
use authsrv_gate::authsrv_session;
use fw_memory::{Calls, MemClock, MemDice, MemKeeper, MemSink, MemSource};
use fw_outside::Keeper;
use fw_types::{Ending, Name, NoMemory, Octets, Peer};
use gate_rules::Rules;
use std::alloc::Global;
use std::thread::Threads;
use tn_gate::tn_session;

/// A port over a book over a keeper in memory, and the rules of the Telnet gateway, if they can be read.
#[derive(Drop)]
pub(crate) struct Stage {
    port: FaultyPort<MemKeeper>,
    rules: Option<Rules>,
}

/// The devices of a session but its dice.
#[derive(Drop)]
pub(crate) struct Devices {
    pub(crate) from: MemSource,
    pub(crate) to: MemSink,
    pub(crate) clock: MemClock,
}

/// Opens the book, whose port fails at these calls, or says why it isn't opened.
pub(crate) fn open(
    alloc: Global,
    keeper: MemKeeper,
    policy: Policy,
    rules: Option<Rules>,
    limit: u64,
    fails: Calls,
) -> Result<Stage, (MemKeeper, OpenFault)> {
    match Book::open(alloc, keeper, policy, limit) {
        Ok(book) => Ok(Stage {
            port: FaultyPort::new(book, fails),
            rules,
        }),
        Err(refused) => {
            drop(rules);
            drop(fails);
            Err(refused)
        }
    }
}

// Holds a session of the Telnet gateway, where the line of this number permits.
fn put_through_by<H: Threads + Sync>(
    rt: &H,
    rules: &Rules,
    line: u32,
    peer: &Peer,
    port: &mut FaultyPort<MemKeeper>,
    devices: &mut gateway::Devices,
) -> Option<Ending> {
    match rules.options(line) {
        Some(_) => Some(tn_session(
            rt,
            rules,
            line,
            peer,
            port,
            &mut devices.from,
            &mut devices.to,
            &mut devices.logs,
            &mut devices.dialer,
            &mut devices.clock,
        )),
        None => None,
    }
}

fn twin_of(alloc: Global, name: &Name, bytes: &Octets) -> Result<(Name, Octets), NoMemory> {
    let bytes = Octets::copy(alloc, bytes.bytes())?;
    Ok((name.twin(), bytes))
}

fn copy_of(alloc: Global, entries: &[(Name, Octets)]) -> Result<Vec<(Name, Octets)>, NoMemory> {
    let mut copy = Vec::new(alloc);
    for (name, bytes) in entries {
        let twin = twin_of(alloc, name, bytes)?;
        copy.push(twin)?;
    }
    Ok(copy)
}

/// The keeper of the setup, which fails at these calls.
pub(crate) fn keeper_of(
    alloc: Global,
    setup: &Setup,
    fails: &[u64],
) -> Result<MemKeeper, NoMemory> {
    let fails = Calls::of(alloc, fails)?;
    let entries = copy_of(alloc, &setup.entries)?;
    Ok(MemKeeper::new(alloc, entries, fails))
}

impl Stage {
    /// Asks a request, whose moment this is.
    pub(crate) fn ask(&mut self, sid: u64, at: u64, request: Request) -> Result<Reply, PortFault> {
        self.port.ask(sid, at, request)
    }

    /// Holds a session.
    pub(crate) fn hold(&mut self, console: bool, devices: &mut Devices) -> Ending {
        let mut dice = MemDice::new(0x0102_0304_0506_0708);
        authsrv_session(
            console,
            &mut self.port,
            &mut devices.from,
            &mut devices.to,
            &mut devices.clock,
            &mut dice,
        )
    }

    /// Holds a session of the Telnet gateway for a peer whom the line of this number permits, if there is such a line.
    pub(crate) fn put_through<H: Threads + Sync>(
        &mut self,
        rt: &H,
        line: u64,
        peer: &Peer,
        devices: &mut gateway::Devices,
    ) -> Option<Ending> {
        let line = u32::try_from(line).ok()?;
        let rules = self.rules.as_ref()?;
        put_through_by(rt, rules, line, peer, &mut self.port, devices)
    }

    /// Ends it: the keeper and all entries.
    pub(crate) fn close(self) -> (MemKeeper, Vec<Entry>) {
        let Stage { port, rules } = self;
        drop(rules);
        port.into_book().close()
    }

    /// Ends it: all entries.
    pub(crate) fn history(self) -> Vec<Entry> {
        let (keeper, history) = self.close();
        drop(keeper);
        history
    }
}

/// What the keeper loads. Nothing where it fails.
pub(crate) fn load(alloc: Global, mut keeper: MemKeeper) -> Vec<(Name, Octets)> {
    let loaded = keeper.load();
    drop(keeper);
    match loaded {
        Ok(loaded) => loaded,
        Err(_) => Vec::new(alloc),
    }
}
