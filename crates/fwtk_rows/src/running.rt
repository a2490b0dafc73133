//! The one call of `run`.
ghost use Rattle.std.specs.Prelude.{◌≡◌, true, IsSome};
ghost use Rattle.bastion.specs.Status.{is_remote_line};
ghost use Rattle.bastion.specs.Words.{line_of};

use bastion::{CommandLine, Kit, Mailer, World, run};
use fw_memory::{
    MemClock, MemDialer, MemDice, MemDisk, MemFiles, MemKeeper, MemLauncher, MemMailer, MemSink,
    MemSource,
};
use fw_types::Octets;
use runs_of_rows::{Devices, Ended, Helpers, Place, Talk};
use std::alloc::Global;
use std::thread::Threads;

/// The kinds of device in memory.
#[derive(Drop)]
pub(crate) struct Memory;

impl Kit for Memory {
    type Files = MemFiles;

    type Input = MemSource;

    type Output = MemSink;

    type Logs = MemSink;

    type Tick = MemClock;

    type Dice = MemDice;

    type Keeper = MemKeeper;

    type Dial = MemDialer;

    type Launch = MemLauncher;

    type Disk = MemDisk;

    type AuthIn = MemSource;

    type AuthOut = MemSink;
}

// The status, and the devices after the run.
fn ended_of(status: u8, world: World<Memory>) -> Ended {
    let World {
        files,
        input,
        output,
        logs,
        clock,
        dice,
        keeper,
        dialer,
        launcher,
        disks: _,
        remote,
    } = world;
    let place = Place {
        files,
        logs,
        clock,
        dice,
    };
    let devices = Devices {
        talk: Talk { input, output },
        place,
        helpers: Helpers {
            dialer,
            launcher,
            remote,
        },
    };
    Ended {
        status,
        devices,
        keeper,
        closed: false,
    }
}

// The status for want of memory, here for the mailer, which no row calls.
const WANTS_MEMORY: u8 = 5;

// The status of a row of a gateway whose users a server elsewhere knows, where the row has no such server.
const WANTS_SERVER: u8 = 254;

// Whether the words are those of such a gateway.
fn is_remote(words: &[Octets]) -> bool
    ensures { result ≡ is_remote_line (line_of words.now) }
{
    match CommandLine::read(words) {
        Some(line) => line.order.is_remote(),
        None => false,
    }
}

// Runs the command line over the devices and the keeper.
fn run_in<H: Threads + Sync>(
    rt: &H,
    alloc: Global,
    words: &[Octets],
    devices: Devices,
    keeper: MemKeeper,
) -> Ended
    requires remote { is_remote_line (line_of words.now) ≡ true → IsSome devices.helpers.remote }
{
    let mut mailers: Vec<Box<dyn Mailer>> = Vec::new(alloc);
    let is_made = match Box::new(alloc, MemMailer::new(alloc, Vec::new(alloc))) {
        Ok(mailer) => mailers.push(mailer).is_ok(),
        Err(_) => false,
    };
    if !is_made || mailers.is_empty() {
        return Ended {
            status: WANTS_MEMORY,
            devices,
            keeper: Some(keeper),
            closed: false,
        };
    }
    let Devices {
        talk,
        place,
        helpers,
    } = devices;
    let Talk { input, output } = talk;
    let Place {
        files,
        logs,
        clock,
        dice,
    } = place;
    let Helpers {
        dialer,
        launcher,
        remote,
    } = helpers;
    let mut world: World<Memory> = World {
        files,
        input,
        output,
        logs,
        clock,
        dice,
        keeper: Some(keeper),
        dialer,
        launcher,
        disks: Vec::new(alloc),
        remote,
    };
    let status = run(rt, alloc, words, &mut mailers, &mut world);
    ended_of(status, world)
}

// The same, where there is no server elsewhere.
fn run_alone<H: Threads + Sync>(
    rt: &H,
    alloc: Global,
    words: &[Octets],
    devices: Devices,
    keeper: MemKeeper,
) -> Ended {
    if is_remote(words) {
        return Ended {
            status: WANTS_SERVER,
            devices,
            keeper: Some(keeper),
            closed: false,
        };
    }
    run_in(rt, alloc, words, devices, keeper)
}

/// Runs the command line over the devices and the keeper.
pub(crate) fn run_over<H: Threads + Sync>(
    rt: &H,
    alloc: Global,
    words: &[Octets],
    devices: Devices,
    keeper: MemKeeper,
) -> Ended {
    match &devices.helpers.remote {
        Some(_) => run_in(rt, alloc, words, devices, keeper),
        None => run_alone(rt, alloc, words, devices, keeper),
    }
}
