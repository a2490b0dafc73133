//! The command `smap`: the slots are opened, a client of the mail gateway is served over them, and the disks go back.
ghost use Rattle.std.specs.Prelude.{◌≡◌, ◌≤◌, length, map, IfErr, IfOk};
ghost use Rattle.client_service.specs.Conn.{Conn};
ghost use Rattle.gate_rules.specs.declared.service.Service.TheVariants as services;
ghost use Rattle.bastion.specs.Inputs.{no_inputs};
ghost use Rattle.bastion.specs.Mailing.{Mailed, OpensRack, ServesMail, SlotsUnread, TakesOut, mailed_devices, slot_fault, with_disks};
ghost use Rattle.bastion.specs.Run.{DoesFor};
ghost use Rattle.bastion.specs.declared.words.Command.TheVariants.{Smap};

use crate::reading::rules_for;
use crate::{Device, Kit, Outcome, Refusal, Step, World};
use client_service::conn;
use fw_types::{Ending, Peer};
use gate_rules::{Rules, Service};
use plug_gate::NoPort;
use session_acts::Nowhere;
use spool_rack::{Rack, RackFault, SlotWhy};
use std::alloc::Global;
use std::mem;
use std::thread::Threads;

// Why a slot isn't opened.
fn slot_fault(slot: u32, why: SlotWhy) -> Outcome
    ensures { result ≡ slot_fault slot why }
{
    match why {
        SlotWhy::BadSlot { at } => Outcome::Unread(Refusal::Slot { slot, at }),
        SlotWhy::DiskFault => Outcome::Failed(Device::Disk(slot as usize)),
        SlotWhy::NoMemory => Outcome::NoMemory(Step::Slots),
    }
}

// The disks, which are in the world no more.
fn take_disks<T: Kit>(alloc: Global, world: &mut World<T>) -> Vec<T::Disk>
    ensures { TakesOut (map T.Disk.disk_view result.items) world.old world.new }
{
    mem::replace(&mut world.disks, Vec::new(alloc))
}

/// The disks are there again.
pub(crate) fn put_disks<T: Kit>(disks: Vec<T::Disk>, world: &mut World<T>)
    ensures { world.new ≡ with_disks (map T.Disk.disk_view disks.items) world.old }
{
    world.disks = disks;
}

/// How many disks there are.
pub(crate) fn disk_count<T: Kit>(world: &World<T>) -> usize
    ensures { result ≡ length world.now.inputs.disks }
{
    world.disks.len()
}

/// Opens the slots of the disks, which are in the rack then. Where one can't be opened, they are in the world again.
pub fn open_rack<T: Kit>(alloc: Global, world: &mut World<T>) -> Result<Rack<T::Disk>, Outcome>
    requires few { length world.old.inputs.disks ≤ 64 }
    ensures opened { IfOk result (λ rack. OpensRack rack world.old world.new) }
    ensures unopened { IfErr result (λ outcome. SlotsUnread outcome world.old world.new) }
{
    let disks = take_disks(alloc, world);
    match Rack::open(alloc, disks) {
        Ok(rack) => Ok(rack),
        Err(fault) => {
            let RackFault { disks, slot, why } = fault;
            put_disks(disks, world);
            Err(slot_fault(slot, why))
        }
    }
}

// A client whom the rules permit or deny. Nobody is asked at the port, and no server is met.
fn serve<H, T>(
    rt: &H,
    alloc: Global,
    rules: &Rules,
    peer: &Peer,
    rack: &mut Rack<T::Disk>,
    dialer: &mut Nowhere,
    world: &mut World<T>,
) -> Ending
where
    H: Threads + Sync,
    T: Kit,
    ensures conn { Conn services.Smap rules.now peer.now (mailed_devices world.old dialer.old rack.old)
        (mailed_devices world.new dialer.new rack.new) result }
    ensures inputs { world.new.inputs ≡ record (world.old.inputs) { input = world.new.inputs.input } }
    ensures files { world.new.files ≡ world.old.files }
{
    let mut port = NoPort;
    conn(
        rt,
        alloc,
        &Service::Smap,
        rules,
        peer,
        &mut port,
        &mut world.input,
        &mut world.output,
        &mut world.logs,
        dialer,
        rack,
        &mut world.clock,
        &mut world.dice,
    )
}

// Serves the client over these slots, and gives their disks back.
fn serve_over<H, T>(
    rt: &H,
    alloc: Global,
    rules: &Rules,
    peer: &Peer,
    rack: Rack<T::Disk>,
    world: &mut World<T>,
) -> Outcome
where
    H: Threads + Sync,
    T: Kit,
    ensures { ServesMail peer.now rules.now rack result world.old world.new }
{
    let mut rack = rack;
    let mut dialer = Nowhere::new();
    let ending = serve(rt, alloc, rules, peer, &mut rack, &mut dialer, world);
    put_disks(rack.close(), world);
    Outcome::Ended {
        ending,
        refused: false,
    }
}

// Opens the slots and serves the client over them.
fn serve_mail<H, T>(
    rt: &H,
    alloc: Global,
    rules: &Rules,
    peer: &Peer,
    world: &mut World<T>,
) -> Outcome
where
    H: Threads + Sync,
    T: Kit,
    requires few { length world.old.inputs.disks ≤ 64 }
    ensures { Mailed peer.now (record no_inputs { rules = rules.now }) result world.old world.new }
{
    match open_rack(alloc, world) {
        Ok(rack) => serve_over(rt, alloc, rules, peer, rack, world),
        Err(outcome) => outcome,
    }
}

/// A client of the mail gateway.
pub(crate) fn take_mail<H, T>(
    rt: &H,
    alloc: Global,
    name: &[u8],
    peer: &Peer,
    world: &mut World<T>,
) -> Outcome
where
    H: Threads + Sync,
    T: Kit,
    requires few { length world.old.inputs.disks ≤ 64 }
    ensures { DoesFor name.now (Smap peer.now) result world.old world.new }
{
    match rules_for(alloc, name, &Service::Smap, world) {
        Ok(rules) => serve_mail(rt, alloc, &rules, peer, world),
        Err(outcome) => outcome,
    }
}
