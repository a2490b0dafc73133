//! The firewall's program: makes the devices of a process and calls `bastion::run` over them, or for `serve`
//! `bastion_ready::ready` and then `fwtk_serve::serve`.
//!
//! `main` has no contract of its own. It answers `--help` and `--version`.
#![tactic(auto)]

use bastion::{
    Command, CommandLine, Device, Job, Mailer, Order, Outcome, Places, Step, World, places, run,
};
use binding::{Binding, Parted, part};
use fw_memory::MemDice;
use fw_outside::{Dice, Sink};
use fw_real::{Paths, Reading, Records, Salts, StandardInput, SystemClock, Writing};
use fw_types::Octets;
use process::Process;
use real_links::{ClientHosts, LinkSink, Programs, StandardOutput, TcpDialer};
use real_waits::shared;
use remote::remote_for;
use serving::{is_server, serve_words};
use spool::{Slots, disks_of, mailer_of};
use std::env;
use std::fs::File;
use std::io::ErrorKind;
use std::process::ExitCode;
use std::sync::Wait;
use std::thread::Threads;

mod binding;
mod process;
mod remote;
mod serving;
mod spool;

const HELP: &[u8] = b"\
usage: fwtk [-t FILE] netacl [-run] DAEMON ADDRESS [NAME]
       fwtk [-t FILE] table SERVICE ADDRESS [NAME]
       fwtk [-t FILE] [-r FILE] authsrv [-console] ADDRESS [NAME]
       fwtk [-t FILE] plug-gw PORT ADDRESS [NAME]
       fwtk [-t FILE] [-r FILE] [-a HOST:PORT] tn-gw ADDRESS [NAME]
       fwtk [-t FILE] [-r FILE] [-a HOST:PORT] [-b ADDRESS] [-p LOW-HIGH] ftp-gw ADDRESS [NAME]
       fwtk [-t FILE] [-r FILE] [-s FOLDER] [-n SLOTS] [-m PROGRAM] [-b ADDRESS] [-p LOW-HIGH] serve WORKERS SERVICE@PORT ..
       fwtk [-t FILE] [-s FOLDER] [-n SLOTS] smap ADDRESS [NAME]
       fwtk [-s FOLDER] [-n SLOTS] [-m PROGRAM] smapd
       fwtk [-s FOLDER] [-n SLOTS] spool-init
       fwtk drill START COUNT
       fwtk otp-calc DICTIONARY
       fwtk otp-hex DICTIONARY W1 W2 W3 W4 W5 W6
       fwtk --help | --version
  -t FILE  the permission table, /usr/local/etc/netperm-table by default
  -r FILE  the records of users, authdb in the current directory by default
  -s FOLDER  the folder of the mail's slots, spool in the current directory by default
  -n SLOTS  how many slots there are, 1 to 64, 8 by default
  -m PROGRAM  the program that mail is handed to, /usr/lib/sendmail by default
  -a HOST:PORT  the authentication server that a gateway asks in place of the records
  -b ADDRESS  the address at which serve listens, all by default, and at which ftp-gw waits for data
  -p LOW-HIGH  the ports at which data is waited for, any that the system picks by default
fwtk(8) lists the exit statuses; netacl(8), authsrv(8), plug-gw(8), tn-gw(8), ftp-gw(8), serve(8), smap(8), smapd(8),
otp-calc(1), netperm-table(5) and spool(5) have the rest.
";

const VERSION: &[u8] = b"fwtk 2.1\n";

/// Why the program stops.
#[derive(Drop)]
enum Stop {
    /// For a fault before the run.
    Fault(Outcome),
    /// The system gave no random bytes, so nothing was done.
    NoRandomBytes,
}

impl From<Outcome> for Stop {
    fn from(outcome: Outcome) -> Stop {
        Stop::Fault(outcome)
    }
}

// The words of the command line, or why there are none.
fn read_words(rt: &HostRuntime) -> Result<Vec<Octets>, Outcome> {
    let alloc = rt.alloc();
    let args = match env::args(rt) {
        Ok(args) => args,
        Err(e) if e.kind() == ErrorKind::OutOfMemory => return Err(Outcome::NoMemory(Step::Start)),
        Err(_) => return Err(Outcome::Usage),
    };
    let mut words = Vec::new(alloc);
    for arg in args.skip(1) {
        let word = Octets::copy(alloc, arg.as_bytes())?;
        words.push(word)?;
    }
    Ok(words)
}

// What is printed for a word alone that asks for no run.
fn answer(words: &[Octets]) -> Option<&'static [u8]> {
    match words {
        [word] if word.bytes() == b"--help".as_slice() => Some(HELP),
        [word] if word.bytes() == b"--version".as_slice() => Some(VERSION),
        _ => None,
    }
}

fn tell(rt: &HostRuntime, stop: &Stop) -> u8 {
    let mut logs = Writing::new(rt.stderr());
    match stop {
        Stop::Fault(outcome) => {
            if let Some(line) = outcome.fault_line() {
                let _ = logs.give(line.as_slice());
            }
            outcome.status()
        }
        Stop::NoRandomBytes => {
            let _ = logs.give(b"fault outside random\n");
            4
        }
    }
}

// What the words say of the devices.
#[derive(Drop)]
struct Needs<'a> {
    // What the options name.
    places: Places<'a>,
    // Whether salts are drawn.
    salts: bool,
    // What is done with the slots.
    slots: Slots,
}

fn slots_for(order: &Order) -> Slots {
    match order {
        Order::Alone(Job::SpoolInit) => Slots::Made,
        Order::ByTable(Command::Smap(_)) => Slots::Opened,
        Order::Alone(Job::Smapd) => Slots::Opened,
        _ => Slots::Unused,
    }
}

impl<'a> Needs<'a> {
    fn of(words: &'a [Octets]) -> Needs<'a> {
        match CommandLine::read(words) {
            Some(line) => Needs {
                places: line.places,
                salts: matches!(line.order, Order::ByTable(Command::Authsrv(_))),
                slots: slots_for(&line.order),
            },
            None => Needs {
                places: places(words),
                salts: false,
                slots: Slots::Unused,
            },
        }
    }
}

// The dialer of a process whose client's connection has these ends.
fn dialer_for(
    rt: HostRuntime,
    binding: &Binding,
    hosts: Option<ClientHosts>,
) -> TcpDialer<HostRuntime> {
    TcpDialer::new(rt, rt.alloc(), binding.hosts(hosts)).with_doors_at(binding.ports())
}

fn run_with<H, D>(
    threads: &H,
    rt: HostRuntime,
    words: &[Octets],
    needs: &Needs,
    input: Reading<StandardInput>,
    output: LinkSink<StandardOutput>,
    dialer: TcpDialer<HostRuntime>,
    dice: D,
) -> Result<u8, Outcome>
where
    H: Threads + Sync,
    D: Dice,
{
    let mut mailers: Vec<Box<dyn Mailer>> = Vec::new(rt.alloc());
    mailers.push(Box::new(rt.alloc(), mailer_of(rt, &needs.places)?)?)?;
    let keeper = Records::new(rt, needs.places.db)?;
    let disks = disks_of(rt, &needs.places, needs.slots)?;
    let mut world: World<Process<D>> = World {
        files: Paths::new(rt),
        input,
        output,
        logs: Writing::new(rt.stderr()),
        clock: SystemClock::new(rt),
        dice,
        keeper: Some(keeper),
        dialer,
        launcher: Programs::new(rt, rt.alloc()),
        disks,
        remote: remote_for(rt, words),
    };
    Ok(run(threads, rt.alloc(), words, &mut mailers, &mut world))
}

fn obey<H: Threads + Wait + Sync>(threads: &H, rt: HostRuntime) -> Result<u8, Stop> {
    let Parted { binding, words } = part(rt.alloc(), read_words(&rt)?)?;
    if is_server(&words) {
        return Ok(serve_words(threads, rt, binding.site(), &words)?);
    }
    let stdout = StandardOutput::of(rt.stdout());
    let activity = stdout.activity(rt).ok();
    let input = Reading::new(StandardInput::within(shared(&activity), rt.stdin()));
    let dialer = dialer_for(rt, &binding, stdout.hosts()).within(shared(&activity));
    let mut output = LinkSink::within(activity, stdout);
    if let Some(text) = answer(&words) {
        return match output.give(text) {
            Ok(()) => Ok(0),
            Err(_) => Err(Stop::Fault(Outcome::Failed(Device::Output))),
        };
    }
    let needs = Needs::of(&words);
    if !needs.salts {
        return Ok(run_with(
            threads,
            rt,
            &words,
            &needs,
            input,
            output,
            dialer,
            MemDice::new(0),
        )?);
    }
    match Salts::new(&rt) {
        Ok(salts) => Ok(run_with(threads, rt, &words, &needs, input, output, dialer, salts)?),
        Err(_) => Err(Stop::NoRandomBytes),
    }
}

// A descriptor that can be neither read nor written.
fn hold(rt: &HostRuntime) -> Result<File, Stop> {
    match File::open(rt, "/") {
        Ok(file) => Ok(file),
        Err(_) => Err(Stop::Fault(Outcome::Failed(Device::Output))),
    }
}

// A standard stream that is closed would lend its number to the next file that is opened, and what is printed or logged would
// be written into a slot. So three descriptors are held first, which take the numbers of those that are closed.
fn obey_held<H: Threads + Wait + Sync>(threads: &H, rt: HostRuntime) -> Result<u8, Stop> {
    let first = hold(&rt)?;
    let second = hold(&rt)?;
    let third = hold(&rt)?;
    let status = obey(threads, rt);
    drop(first);
    drop(second);
    drop(third);
    status
}

fn main(rt: HostRuntime) -> ExitCode {
    match obey_held(&rt, rt) {
        Ok(status) => ExitCode::from(status),
        Err(stop) => ExitCode::from(tell(&rt, &stop)),
    }
}
