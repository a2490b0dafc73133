//! The command `plug-gw`: the rules of the port are read, and a client is linked to the server that they name.
ghost use Rattle.bastion.specs.Inputs.{no_inputs};
ghost use Rattle.bastion.specs.Linking.{Linked};
ghost use Rattle.bastion.specs.Run.{DoesFor};
ghost use Rattle.client_service.specs.PlugService.{AreRulesOf};
ghost use Rattle.gate_rules.specs.declared.service.Service.TheVariants as services;
ghost use Rattle.bastion.specs.declared.words.Command.TheVariants.{PlugGw};

use crate::reading::rules_for;
use crate::{Caller, Kit, Outcome, World};
use client_service::conn;
use gate_rules::{Rules, Service};
use plug_gate::NoPort;
use session_acts::NoStore;
use std::alloc::Global;
use std::thread::Threads;

// A client whom the rules permit or deny. Nobody is asked at the port.
fn link<H, T>(
    rt: &H,
    alloc: Global,
    rules: &Rules,
    caller: &Caller,
    world: &mut World<T>,
) -> Outcome
where
    H: Threads + Sync,
    T: Kit,
    requires rules { AreRulesOf (services.PlugGw caller.now.port) rules.now }
    ensures { Linked caller.now (record no_inputs { rules = rules.now }) result world.old world.new }
{
    let mut port = NoPort;
    let mut store = NoStore;
    let ending = conn(
        rt,
        alloc,
        &Service::PlugGw(caller.port),
        rules,
        &caller.peer,
        &mut port,
        &mut world.input,
        &mut world.output,
        &mut world.logs,
        &mut world.dialer,
        &mut store,
        &mut world.clock,
        &mut world.dice,
    );
    Outcome::Ended {
        ending,
        refused: false,
    }
}

/// A client of the plug.
pub(crate) fn plug<H, T>(
    rt: &H,
    alloc: Global,
    name: &[u8],
    caller: &Caller,
    world: &mut World<T>,
) -> Outcome
where
    H: Threads + Sync,
    T: Kit,
    ensures { DoesFor name.now (PlugGw caller.now) result world.old world.new }
{
    match rules_for(alloc, name, &Service::PlugGw(caller.port), world) {
        Ok(rules) => link(rt, alloc, &rules, caller, world),
        Err(outcome) => outcome,
    }
}
