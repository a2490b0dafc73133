//! Worlds of devices in memory, and the one call of `run`.
ghost use Rattle.std.specs.Prelude.{◌≡◌, ◌<◌, ◌≤◌, false, length};
ghost use Rattle.bastion.specs.Status.{is_remote_line};
ghost use Rattle.bastion.specs.Words.{line_of};

use crate::shown::shown_by;
use bastion::{CommandLine, Kit, World, run};
use fw_mail::{Handed, Mailer};
use fw_memory::{
    Calls, MemClock, MemDialer, MemDice, MemDisk, MemFiles, MemKeeper, MemLauncher, MemMailer,
    MemSink, MemSource,
};
use fw_types::{NoMemory, Octets};
use std::alloc::Global;
use std::thread::Threads;

/// A run has at most so many disks.
const MOST_DISKS: usize = 64;

/// The kinds of device in memory.
#[derive(Drop)]
pub(crate) struct Memory;

impl Kit for Memory {
    type Files = MemFiles;

    type Input = MemSource;

    type Output = MemSink;

    type Logs = MemSink;

    type Tick = MemClock;

    type Dice = MemDice;

    type Keeper = MemKeeper;

    type Dial = MemDialer;

    type Launch = MemLauncher;

    type Disk = MemDisk;

    type AuthIn = MemSource;

    type AuthOut = MemSink;
}

/// The words of a command line.
pub(crate) fn words_of(alloc: Global, line: &[u8]) -> Result<Vec<Octets>, NoMemory> {
    let mut words = Vec::new(alloc);
    for word in line.split(|byte| *byte == b' ') {
        words.push(Octets::copy(alloc, word)?)?;
    }
    Ok(words)
}

/// This table, under the name that is read where no other is named. So many bytes of it come at once, and these calls fail.
pub(crate) fn files_of(
    alloc: Global,
    table: Octets,
    piece: usize,
    fails: Calls,
) -> Result<MemFiles, NoMemory>
    requires some { 0 < piece }
{
    let name = Octets::copy(alloc, b"/usr/local/etc/netperm-table")?;
    let mut files = Vec::new(alloc);
    files.push((name, table))?;
    Ok(MemFiles::new(alloc, files, piece, fails, Calls::none()))
}

/// A client who says nothing.
pub(crate) fn nobody(alloc: Global) -> Result<MemSource, NoMemory> {
    let none = Octets::copy(alloc, b"")?;
    Ok(MemSource::new(none, 1, Calls::none(), Calls::none()))
}

/// A dialer that reaches no server.
pub(crate) fn no_server(alloc: Global) -> Result<MemDialer, NoMemory> {
    MemDialer::new(alloc, Vec::new(alloc), Vec::new(alloc), 1, Calls::none())
}

/// What a run is given beside its records and its disks.
#[derive(Drop)]
pub(crate) struct Devices {
    pub(crate) files: MemFiles,
    pub(crate) input: MemSource,
    pub(crate) output: MemSink,
    pub(crate) logs: MemSink,
    pub(crate) dialer: MemDialer,
}

/// The status of a run, what was printed or the client was told, what was logged, the disks behind it, and the messages that
/// the mailer took.
#[derive(Drop)]
pub(crate) struct Ended {
    pub(crate) status: u8,
    pub(crate) output: MemSink,
    pub(crate) logs: MemSink,
    pub(crate) disks: Vec<MemDisk>,
    pub(crate) shown: Vec<u8>,
}

impl Ended {
    /// The disks, and the messages that the mailer took.
    pub(crate) fn into_left(self) -> (Vec<MemDisk>, Vec<u8>) {
        let Ended {
            status: _,
            output,
            logs,
            disks,
            shown,
        } = self;
        drop(output);
        drop(logs);
        (disks, shown)
    }
}

// What a run with this status left in the world.
fn ended_of(status: u8, world: World<Memory>, shown: Vec<u8>) -> Ended {
    let World {
        files,
        input,
        output,
        logs,
        clock,
        dice: _,
        keeper,
        dialer,
        launcher,
        disks,
        remote: _,
    } = world;
    drop(files);
    drop(input);
    drop(clock);
    drop(keeper);
    drop(dialer);
    drop(launcher);
    Ended {
        status,
        output,
        logs,
        disks,
        shown,
    }
}

// The one call of `run`, with no records and no program that could be started: its status, and what it left in the world.
fn run_with<H: Threads + Sync>(
    threads: &H,
    alloc: Global,
    words: &[Octets],
    devices: Devices,
    disks: Vec<MemDisk>,
    mailers: &mut Vec<Box<dyn Mailer>>,
) -> (u8, World<Memory>)
    requires few { length disks.items ≤ 64 }
    requires some { 0 < length mailers.old.items }
    requires here { is_remote_line (line_of words.now) ≡ false }
{
    let Devices {
        files,
        input,
        output,
        logs,
        dialer,
    } = devices;
    let mut world: World<Memory> = World {
        files,
        input,
        output,
        logs,
        clock: MemClock::new(Vec::new(alloc)),
        dice: MemDice::new(0),
        keeper: Some(MemKeeper::new(alloc, Vec::new(alloc), Calls::none())),
        dialer,
        launcher: MemLauncher::new(alloc, Vec::new(alloc), Calls::none()),
        disks,
        remote: None,
    };
    let status = run(threads, alloc, words, mailers, &mut world);
    (status, world)
}

// What the first mailer shows, behind a run with this status.
fn ended_by(
    alloc: Global,
    status: u8,
    world: World<Memory>,
    mailers: &[Box<dyn Mailer>],
) -> Result<Ended, NoMemory> {
    let mut ended = ended_of(status, world, Vec::new(alloc));
    match shown_by(alloc, mailers) {
        Ok(shown) => {
            ended.shown = shown;
            Ok(ended)
        }
        Err(NoMemory) => {
            drop(ended);
            Err(NoMemory)
        }
    }
}

// Whether the words are those of a gateway whose users a server elsewhere knows.
fn is_remote(words: &[Octets]) -> bool
    ensures { result ≡ is_remote_line (line_of words.now) }
{
    match CommandLine::read(words) {
        Some(line) => line.order.is_remote(),
        None => false,
    }
}

/// Runs a command line over these devices and disks, with no records, and with a mailer that gives these answers; nothing where there
/// are too many disks, or a server elsewhere is wanted.
pub(crate) fn run_over<H: Threads + Sync>(
    threads: &H,
    alloc: Global,
    line: &[u8],
    devices: Devices,
    disks: Vec<MemDisk>,
    answers: Vec<Handed>,
) -> Result<Option<Ended>, NoMemory> {
    if disks.len() > MOST_DISKS {
        return Ok(None);
    }
    let words = words_of(alloc, line)?;
    if is_remote(&words) {
        return Ok(None);
    }
    let mut mailers: Vec<Box<dyn Mailer>> = Vec::new(alloc);
    mailers.push(Box::new(alloc, MemMailer::new(alloc, answers))?)?;
    let (status, world) = run_with(threads, alloc, &words, devices, disks, &mut mailers);
    let ended = ended_by(alloc, status, world, &mailers)?;
    Ok(Some(ended))
}
