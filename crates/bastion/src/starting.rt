//! What the rules of a service decide, logged and printed, and then the program of the line that permits.
ghost use Rattle.std.specs.Prelude.{◌≡◌, [], ◌∷◌, IfOk};
ghost use Rattle.gate_rules.specs.Verdict.{verdict_of};
ghost use Rattle.gate_rules.specs.declared.verdict.Verdict.TheVariants.{Permit};
ghost use Rattle.bastion.specs.Deciding.{DecidesRun, OrLacks, PermitsRun};
ghost use Rattle.bastion.specs.Works.{AnnouncedRun, Launches, LaunchesIf};

use crate::deciding::{announce, shown};
use crate::texts::{ended_line, exec_at, permit_print, verdict_text};
use crate::{Device, Kit, Outcome, Query, Step, World};
use client_service::verdict_of;
use fw_outside::Started;
use fw_types::{NoMemory, Octets, OctetsList};
use gate_rules::{Rules, Verdict};
use std::alloc::Global;

// A copy of these words.
fn copy_words(alloc: Global, words: &[Octets]) -> Result<OctetsList, NoMemory>
    ensures { IfOk result (λ copy. copy ≡ words.now) }
{
    let mut copy = OctetsList::new(alloc);
    for word in words {
        if copy.push(Octets::copy(alloc, word.bytes())?).is_err() {
            return Err(NoMemory);
        }
    }
    Ok(copy)
}

// Starts a program with these arguments, and prints how it ended.
fn launch<T: Kit>(
    program: &[u8],
    args: &OctetsList,
    verdict: Verdict,
    world: &mut World<T>,
) -> Outcome
    ensures { Launches program.now args.now verdict result world.old world.new }
{
    match world.start(program, args) {
        Started::Ended(status) => shown(verdict, world.print(ended_line(status).as_slice())),
        Started::Failed => Outcome::Failed(Device::Program),
    }
}

// Starts a program where the decision was told whole.
fn launch_if<T: Kit>(
    program: &[u8],
    args: &OctetsList,
    decided: Outcome,
    world: &mut World<T>,
) -> Outcome
    ensures { LaunchesIf (program.now ∷ args.now) decided result world.old world.new }
{
    match decided {
        Outcome::Decided(verdict) => launch(program, args, verdict, world),
        Outcome::Usage => Outcome::Usage,
        Outcome::Unread(refusal) => Outcome::Unread(refusal),
        Outcome::Failed(device) => Outcome::Failed(device),
        Outcome::NoMemory(step) => Outcome::NoMemory(step),
        Outcome::Done => Outcome::Done,
        Outcome::Ended { ending, refused } => Outcome::Ended { ending, refused },
    }
}

// Logs and prints a verdict that starts no program.
fn announce_alone<T: Kit>(
    world: &mut World<T>,
    verdict: Verdict,
    query: &Query,
    text: &[u8],
) -> Outcome
    ensures { AnnouncedRun query.now verdict text.now [] result world.old world.new }
{
    announce(world, verdict, query, text)
}

// Logs and prints a verdict, and then starts the program.
fn announce_and_launch<T: Kit>(
    world: &mut World<T>,
    verdict: Verdict,
    query: &Query,
    text: &[u8],
    program: &[u8],
    args: &OctetsList,
) -> Outcome
    ensures { AnnouncedRun query.now verdict text.now (program.now ∷ args.now) result world.old world.new }
{
    let decided = announce(world, verdict, query, text);
    launch_if(program, args, decided, world)
}

// Logs a permission that starts no program, and then prints it.
fn permit_alone<T: Kit>(line: u32, query: &Query, text: &[u8], world: &mut World<T>) -> Outcome
    ensures { OrLacks result world.old world.new (AnnouncedRun query.now (Permit line) text.now [] result world.old
        world.new) }
{
    announce_alone(world, Verdict::Permit { line }, query, text)
}

// Logs a permission and then prints it, and then starts the program. What takes memory is made before.
fn permit_program<T: Kit>(
    alloc: Global,
    line: u32,
    query: &Query,
    text: &[u8],
    program: &Octets,
    args: &[Octets],
    world: &mut World<T>,
) -> Outcome
    ensures { OrLacks result world.old world.new (AnnouncedRun query.now (Permit line) text.now (program.now ∷ args.now)
        result world.old world.new) }
{
    let Ok(copy) = copy_words(alloc, args) else {
        return Outcome::NoMemory(Step::Print);
    };
    let verdict = Verdict::Permit { line };
    announce_and_launch(world, verdict, query, text, program.bytes(), &copy)
}

// Logs a permission and then prints it, and then starts the program of these words, if there are any.
fn permit_words<T: Kit>(
    alloc: Global,
    line: u32,
    query: &Query,
    text: &[u8],
    words: &[Octets],
    world: &mut World<T>,
) -> Outcome
    ensures { OrLacks result world.old world.new (AnnouncedRun query.now (Permit line) text.now words.now result world.old
        world.new) }
{
    match words {
        [program, args @ ..] => permit_program(alloc, line, query, text, program, args, world),
        [] => permit_alone(line, query, text, world),
    }
}

// Logs a permission and then prints it, and then starts the program of its line.
fn permit_run<T: Kit>(
    alloc: Global,
    rules: &Rules,
    line: u32,
    query: &Query,
    world: &mut World<T>,
) -> Outcome
    ensures { PermitsRun query.now (Permit line) rules.now result world.old world.new }
{
    let Ok(text) = permit_print(alloc, rules, line) else {
        return Outcome::NoMemory(Step::Print);
    };
    permit_words(
        alloc,
        line,
        query,
        text.bytes(),
        exec_at(rules, line),
        world,
    )
}

/// Takes the verdict of the rules, logs it and then prints it, and then starts the program of the line that permits. A
/// denial takes no memory.
pub(crate) fn decide_run<T: Kit>(
    alloc: Global,
    rules: &Rules,
    query: &Query,
    world: &mut World<T>,
) -> Outcome
    ensures { DecidesRun query.now (verdict_of rules.now query.now.peer) rules.now result world.old world.new }
{
    let verdict = verdict_of(rules, &query.peer);
    match verdict {
        Verdict::Permit { line } => permit_run(alloc, rules, line, query, world),
        Verdict::Deny { .. } => {
            announce_alone(world, verdict, query, verdict_text(verdict).as_slice())
        }
    }
}
