//! Plays a scene.

use crate::after::{After, told_fault};
use crate::asking::ask;
use crate::fault::{Fault, Line};
use crate::gateway::Gateway;
use crate::known::{know, know_ends};
use crate::setup::{Fails, Setup, policy_of, rules_of, setup_of};
use crate::stage::{Stage, keeper_of, load, open};
use crate::sweeps::sweep;
use crate::talk::{Break, Talk};
use auth_machine::{OpenFault, Policy};
use fw_memory::{Calls, MemKeeper};
use fw_types::{Name, NoMemory, Octets};
use lines_of_rows::{Told, add};
use std::alloc::Global;
use std::mem::replace;
use std::thread::Threads;

/// A book at work, or what is there where it isn't opened.
#[derive(Drop)]
pub(crate) enum Opening {
    Open(Stage),
    Shut(After),
}

// What is there where the book isn't opened, for this reason.
fn shut(alloc: Global, opening: Told, loaded: Vec<(Name, Octets)>) -> Opening {
    Opening::Shut(After {
        opening,
        history: Vec::new(alloc),
        loaded,
    })
}

// What is there where the keeper or its records refuse the book.
fn refused(alloc: Global, keeper: MemKeeper, fault: &OpenFault) -> Opening {
    let opening = told_fault(fault);
    shut(alloc, opening, load(alloc, keeper))
}

// A book by this policy.
fn opened_by(
    alloc: Global,
    setup: &Setup,
    policy: Policy,
    fails: Fails<'_>,
) -> Result<Opening, NoMemory> {
    let port_fails = Calls::of(alloc, fails.port)?;
    let keeper = keeper_of(alloc, setup, fails.keeper)?;
    let rules = rules_of(alloc, &setup.table);
    match open(alloc, keeper, policy, rules, setup.limit, port_fails) {
        Ok(stage) => Ok(Opening::Open(stage)),
        Err((keeper, fault)) => Ok(refused(alloc, keeper, &fault)),
    }
}

/// A book of the setup, whose keeper and port fail at these calls.
pub(crate) fn book_of(alloc: Global, setup: &Setup, fails: Fails<'_>) -> Result<Opening, NoMemory> {
    match policy_of(alloc, &setup.table) {
        Some(policy) => opened_by(alloc, setup, policy, fails),
        None => Ok(shut(alloc, no_policy(), Vec::new(alloc))),
    }
}

fn no_policy() -> Told {
    let mut told = Told::new();
    add(&mut told, b"no policy");
    told
}

// Does what a line of a scene says.
fn act_line<H: Threads + Sync>(
    rt: &H,
    alloc: Global,
    line: &Line<'_>,
    stage: &mut Stage,
    held: &mut Held,
    broken: Option<Break>,
) -> Result<(), Fault> {
    if line.is_row() {
        return ask(alloc, line, stage);
    }
    step(rt, alloc, line, stage, held, broken)
}

// Does what the lines of a scene say.
fn act_lines<H: Threads + Sync>(
    rt: &H,
    alloc: Global,
    lines: &[Line<'_>],
    stage: &mut Stage,
    held: &mut Held,
    broken: Option<Break>,
) -> Result<(), Fault> {
    for line in lines {
        act_line(rt, alloc, line, stage, held, broken)?;
    }
    Ok(())
}

/// Does what the lines of a scene say. A device of its session may break.
pub(crate) fn act<H: Threads + Sync>(
    rt: &H,
    alloc: Global,
    lines: &[Line<'_>],
    stage: &mut Stage,
    broken: Option<Break>,
) -> Result<(), Fault> {
    let mut held = Held::Server(Talk::new(alloc, false));
    let acted = act_lines(rt, alloc, lines, stage, &mut held, broken);
    drop(held);
    acted
}

// The session that is told of: one of `authsrv`, or of the Telnet gateway.
#[derive(Drop)]
enum Held {
    Server(Talk),
    Gateway(Gateway),
}

impl Held {
    fn take(&mut self, alloc: Global, word: &str, text: &[u8]) -> Result<(), NoMemory> {
        match self {
            Held::Server(talk) => talk.take(alloc, word, text),
            Held::Gateway(gateway) => gateway.take(alloc, word, text),
        }
    }

    fn hold<H: Threads + Sync>(
        &mut self,
        rt: &H,
        alloc: Global,
        line: &Line<'_>,
        stage: &mut Stage,
        broken: Option<Break>,
    ) -> Result<(), Fault> {
        match self {
            Held::Server(talk) => talk.hold(alloc, line, stage, broken),
            Held::Gateway(gateway) => gateway.hold(rt, alloc, line, stage, broken),
        }
    }
}

// Takes in what is said of a session.
fn take(alloc: Global, line: &Line<'_>, word: &str, held: &mut Held) -> Result<(), Fault> {
    let text = line.rest(alloc)?;
    held.take(alloc, word, &text)?;
    Ok(())
}

// Begins another session.
fn begin(held: &mut Held, next: Held) {
    drop(replace(held, next));
}

fn begin_server(alloc: Global, console: bool, held: &mut Held) {
    begin(held, Held::Server(Talk::new(alloc, console)));
}

// Begins a session of the gateway, of the client that the line names.
fn begin_gateway(alloc: Global, line: &Line<'_>, held: &mut Held) -> Result<(), Fault> {
    let client = line.rest(alloc)?;
    begin(held, Held::Gateway(Gateway::new(alloc, client)));
    Ok(())
}

// Takes in a line of a session, or holds it.
fn step<H: Threads + Sync>(
    rt: &H,
    alloc: Global,
    line: &Line<'_>,
    stage: &mut Stage,
    held: &mut Held,
    broken: Option<Break>,
) -> Result<(), Fault> {
    match line.word() {
        "session" => {
            begin_server(alloc, line.text == "session console", held);
            Ok(())
        }
        "telnet" => begin_gateway(alloc, line, held),
        "ends" => held.hold(rt, alloc, line, stage, broken),
        word => take(alloc, line, word, held),
    }
}

// What is there after the scene of these lines, over this book.
fn acted<H: Threads + Sync>(
    rt: &H,
    alloc: Global,
    lines: &[Line<'_>],
    mut stage: Stage,
) -> Result<After, Fault> {
    match act(rt, alloc, lines, &mut stage, None) {
        Ok(()) => Ok(After::of(alloc, stage)),
        Err(fault) => {
            drop(stage);
            Err(fault)
        }
    }
}

// What is there after the scene of these lines.
fn after<H: Threads + Sync>(
    rt: &H,
    alloc: Global,
    lines: &[Line<'_>],
    opening: Opening,
) -> Result<After, Fault> {
    match opening {
        Opening::Open(stage) => acted(rt, alloc, lines, stage),
        Opening::Shut(after) => Ok(after),
    }
}

// Plays the scene of these lines over its setup, and compares what is there.
fn play_over<H: Threads + Sync>(
    rt: &H,
    alloc: Global,
    lines: &[Line<'_>],
    setup: &Setup,
) -> Result<(), Fault> {
    let opening = book_of(alloc, setup, setup.fails())?;
    let after = after(rt, alloc, lines, opening)?;
    let compared = after.compare(alloc, lines);
    drop(after);
    compared
}

// Plays the scene of these lines over its setup, and again as its lines `sweep` say.
fn play_swept<H: Threads + Sync>(
    rt: &H,
    alloc: Global,
    lines: &[Line<'_>],
    setup: &Setup,
) -> Result<(), Fault> {
    play_over(rt, alloc, lines, setup)?;
    sweep(rt, alloc, lines, setup)
}

/// Plays the scene of these lines.
pub(crate) fn play<H: Threads + Sync>(
    rt: &H,
    alloc: Global,
    lines: &[Line<'_>],
) -> Result<(), Fault> {
    know(lines)?;
    know_ends(lines)?;
    let setup = setup_of(alloc, lines)?;
    let played = play_swept(rt, alloc, lines, &setup);
    drop(setup);
    played
}
