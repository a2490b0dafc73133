//! The command `serve`: the devices of a server, and its doors.
ghost use Rattle.std.specs.Prelude.{◌<◌, ◌≤◌, All, IfOk, length};
ghost use Rattle.fwtk_serve.specs.RulesFor.{MayServe};

use crate::process::{Process, SlotDisk};
use crate::spool::{Slots, disks_of, mailer_of};
use arrayvec::ArrayVec;
use bastion::{LogLine, Mailer, Outcome, World, after_options, places_in};
use bastion_ready::{Ready, ServerLine, ready};
use fw_memory::MemDice;
use fw_outside::Sink;
use fw_real::{Paths, Reading, Records, StandardInput, SystemClock, Writing};
use fw_types::{NoMemory, Octets, append, append_u32};
use fwtk_serve::serve;
use gate_rules::Service;
use real_doors::{Closer, Doors, HostNames, Site, SystemPacer, TcpAcceptor, open_doors};
use real_links::{LinkSink, Programs, StandardOutput, TcpDialer};
use std::alloc::Global;
use std::fs;
use std::io::ErrorKind;
use std::sync::Wait;
use std::thread::{self, Threads};

/// Where the names of clients stand.
const HOSTS: &str = "/etc/hosts";

/// How many milliseconds lie between two rounds in which mail is handed on.
const REST: u32 = 1;

/// How many lie behind one in which a hand failed, or which didn't go to its end.
const LONG_REST: u32 = 1_000;

/// Whether the words are those of a server, well formed or not.
pub fn is_server(words: &[Octets]) -> bool {
    match after_options(words) {
        [name, ..] => name.bytes() == b"serve".as_slice(),
        [] => false,
    }
}

// The names of hosts; none where they can't be read.
fn host_names(rt: &HostRuntime) -> Result<HostNames, NoMemory> {
    match fs::read(rt, HOSTS) {
        Ok(text) => Ok(HostNames::of(Octets::of(text))),
        Err(fault) if fault.kind() == ErrorKind::OutOfMemory => Err(NoMemory),
        Err(_) => Ok(HostNames::of(Octets::copy(rt.alloc(), b"")?)),
    }
}

// The line of a door that couldn't be opened.
fn closed_line(door: &TcpAcceptor) -> LogLine {
    let mut out = ArrayVec::new();
    let mut name = ArrayVec::new();
    door.service().write(&mut name);
    append(&mut out, b"fault outside door ");
    append(&mut out, name.as_slice());
    append(&mut out, b" ");
    append_u32(&mut out, u32::from(door.port()));
    append(&mut out, b"\n");
    out
}

// Tells the log which doors couldn't be opened.
fn tell_closed(rt: &HostRuntime, doors: &[TcpAcceptor]) {
    let mut logs = Writing::new(rt.stderr());
    for door in doors {
        if !door.is_open() {
            let _ = logs.give(closed_line(door).as_slice());
        }
    }
}

// Ends the doors once standard input ends.
fn end_with_input<H: Threads>(
    threads: &H,
    rt: HostRuntime,
    closer: Closer,
) -> Result<(), NoMemory> {
    let input = StandardInput::of(rt.stdin());
    match thread::spawn(threads, move || closer.close_after(input)) {
        Ok(handle) => {
            drop(handle);
            Ok(())
        }
        Err(_) => Err(NoMemory),
    }
}

// Opens a door for each of these; all end once standard input does.
fn open_until_end<H: Threads>(
    threads: &H,
    rt: HostRuntime,
    site: Site,
    posts: &[(Service, u16)],
) -> Result<Vec<TcpAcceptor>, NoMemory> {
    let Doors { doors, closer } = open_doors(rt, site, posts, host_names(&rt)?)?;
    tell_closed(&rt, &doors);
    end_with_input(threads, rt, closer)?;
    Ok(doors)
}

fn serve_doors<H: Threads + Wait + Sync>(
    threads: &H,
    rt: HostRuntime,
    site: Site,
    ready: Ready<Records, SlotDisk>,
    mailers: &mut Vec<Box<dyn Mailer>>,
) -> Result<u8, NoMemory>
    requires may { All MayServe ready.rules.items }
    requires some { 0 < length mailers.old.items }
{
    let doors = open_until_end(threads, rt, site, &ready.doors)?;
    let Ready {
        doors: _,
        rules,
        book,
        rack,
    } = ready;
    let mut logs = Writing::new(rt.stderr());
    let mut pacer = SystemPacer::new(rt, REST, LONG_REST);
    serve(
        threads,
        rt.alloc(),
        &rules,
        book,
        doors,
        rack,
        mailers,
        &mut logs,
        &mut pacer,
    )?;
    Ok(0)
}

// A server has slots if mail is among its services.
fn slots_of(line: &ServerLine) -> Slots {
    let posts = line.plan.posts.as_slice();
    if posts.iter().any(|post| matches!(post.0, Service::Smap)) {
        return Slots::Opened;
    }
    Slots::Unused
}

// What is done with the slots, also where the words ask for no server.
fn slots_for(alloc: Global, words: &[Octets]) -> Result<Slots, NoMemory> {
    match ServerLine::read(alloc, words)? {
        Some(line) => Ok(slots_of(&line)),
        None => Ok(Slots::Unused),
    }
}

// Makes a server ready by the devices of this process.
fn make_ready(
    rt: HostRuntime,
    words: &[Octets],
    keeper: Records,
    disks: Vec<SlotDisk>,
) -> Result<Ready<Records, SlotDisk>, u8>
    requires few { length disks.items ≤ 64 }
    ensures may { IfOk result (λ ready. All MayServe ready.rules.items) }
{
    let stdout = StandardOutput::of(rt.stdout());
    let hosts = stdout.hosts();
    let mut world: World<Process<MemDice>> = World {
        files: Paths::new(rt),
        input: Reading::new(StandardInput::of(rt.stdin())),
        output: LinkSink::new(stdout),
        logs: Writing::new(rt.stderr()),
        clock: SystemClock::new(rt),
        dice: MemDice::new(0),
        keeper: Some(keeper),
        dialer: TcpDialer::new(rt, rt.alloc(), hosts),
        launcher: Programs::new(rt, rt.alloc()),
        disks,
        remote: None,
    };
    ready(rt.alloc(), words, &mut world)
}

/// Serves the clients of these words, who come to this site, until standard input ends or no door is left: the exit status. The files of the slots are
/// opened only for a server of mail.
pub fn serve_words<H: Threads + Wait + Sync>(
    threads: &H,
    rt: HostRuntime,
    site: Site,
    words: &[Octets],
) -> Result<u8, Outcome> {
    let places = places_in(words);
    let slots = slots_for(rt.alloc(), words)?;
    let mut mailers: Vec<Box<dyn Mailer>> = Vec::new(rt.alloc());
    mailers.push(Box::new(rt.alloc(), mailer_of(rt, &places)?)?)?;
    let keeper = Records::new(rt, places.db)?;
    let disks = disks_of(rt, &places, slots)?;
    match make_ready(rt, words, keeper, disks) {
        Ok(ready) => Ok(serve_doors(threads, rt, site, ready, &mut mailers)?),
        Err(status) => Ok(status),
    }
}
