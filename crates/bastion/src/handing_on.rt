//! The command `smapd`: the slots are opened, their messages are handed on in one round, and the disks go back.
ghost use Rattle.std.specs.Prelude.{◌≡◌, ◌≤◌, ◌<◌, length, map, Ok};
ghost use Rattle.smapd_queue.specs.Meeting.{meeting_with};
ghost use Rattle.smapd_queue.specs.Round.{HandsOnTelling};
ghost use Rattle.bastion.specs.WorldView.{post_of};
ghost use Rattle.bastion.specs.Works.{Prints};
ghost use Rattle.bastion.specs.HandingOn.{HandsMail, ServesRound, TellsRound, device_of, outcome_after, outcome_faulted, outcome_printed, outcome_told, round_text};

use crate::mailing::{disk_count, open_rack, put_disks};
use crate::{Device, Kit, Outcome, Step, World};
use arrayvec::ArrayVec;
use client_service::LogLine;
use fw_mail::Mailer;
use fw_outside::Failed;
use fw_types::{append, append_u32};
use smapd_queue::{Round, RoundFault, Rounded, Trouble, smapd_round_telling};
use spool_rack::Rack;
use std::alloc::Global;

fn device_of(trouble: Trouble) -> Device
    ensures { result ≡ device_of trouble }
{
    match trouble {
        Trouble::Mailer => Device::Mailer,
        Trouble::Disk(slot) => Device::Disk(slot as usize),
    }
}

// The device of the first turn in which one failed, or what it comes to otherwise.
fn outcome_after(trouble: Option<Trouble>, other: Outcome) -> Outcome
    ensures { result ≡ outcome_after trouble other }
{
    match trouble {
        Some(trouble) => Outcome::Failed(device_of(trouble)),
        None => other,
    }
}

fn outcome_printed(printing: Result<(), Failed>) -> Outcome
    ensures { result ≡ outcome_printed printing }
{
    match printing {
        Ok(()) => Outcome::Done,
        Err(Failed) => Outcome::Failed(Device::Output),
    }
}

// What a round comes to that was printed, or wasn't.
fn outcome_told(trouble: Option<Trouble>, printing: Result<(), Failed>) -> Outcome
    ensures { result ≡ outcome_told trouble printing }
{
    outcome_after(trouble, outcome_printed(printing))
}

fn outcome_faulted(fault: RoundFault) -> Outcome
    ensures { result ≡ outcome_faulted fault }
{
    match fault {
        RoundFault::NoMemory(_) => Outcome::NoMemory(Step::Round),
        RoundFault::LogFault(_) => Outcome::Failed(Device::Log),
    }
}

fn round_line(round: Round) -> LogLine
    ensures { result.items ≡ round_text round }
{
    let mut out = ArrayVec::new();
    append(&mut out, b"accepted ");
    append_u32(&mut out, round.accepted);
    append(&mut out, b" refused ");
    append_u32(&mut out, round.refused);
    append(&mut out, b" failed ");
    append_u32(&mut out, round.failed);
    append(&mut out, b" broken ");
    append_u32(&mut out, round.broken);
    append(&mut out, b"\n");
    out
}

// One round over these slots, with at most so many turns.
fn hand_on<T: Kit>(
    alloc: Global,
    turns: u32,
    rack: &mut Rack<T::Disk>,
    mailers: &mut Vec<Box<dyn Mailer>>,
    world: &mut World<T>,
) -> Rounded
    requires { 0 < length mailers.old.items }
    ensures hands { HandsOnTelling turns result.answer result.trouble
        (meeting_with rack.old (map (λ m. mailer_view m) mailers.old.items) world.old.logs)
        (meeting_with rack.new (map (λ m. mailer_view m) mailers.new.items) world.new.logs) }
    ensures inputs { world.new.inputs ≡ world.old.inputs }
    ensures output { world.new.output ≡ world.old.output }
    ensures files { world.new.files ≡ world.old.files }
{
    smapd_round_telling(alloc, rack, mailers, turns, &mut world.logs)
}

// Prints a text that tells of a round.
fn print_text<T: Kit>(text: &[u8], trouble: Option<Trouble>, world: &mut World<T>) -> Outcome
    ensures tells { Prints (outcome_told trouble) text.now result world.old.output world.new.output }
    ensures inputs { world.new.inputs ≡ world.old.inputs }
    ensures logs { world.new.logs ≡ world.old.logs }
    ensures files { world.new.files ≡ world.old.files }
{
    outcome_told(trouble, world.print(text))
}

// Prints a round that went to its end.
fn print_round<T: Kit>(round: Round, trouble: Option<Trouble>, world: &mut World<T>) -> Outcome
    ensures tells { TellsRound (Ok round) trouble result world.old.output world.new.output }
    ensures inputs { world.new.inputs ≡ world.old.inputs }
    ensures logs { world.new.logs ≡ world.old.logs }
    ensures files { world.new.files ≡ world.old.files }
{
    print_text(round_line(round).as_slice(), trouble, world)
}

// Tells what a round came to.
fn tell_round<T: Kit>(rounded: Rounded, world: &mut World<T>) -> Outcome
    ensures tells { TellsRound rounded.answer rounded.trouble result world.old.output world.new.output }
    ensures inputs { world.new.inputs ≡ world.old.inputs }
    ensures logs { world.new.logs ≡ world.old.logs }
    ensures files { world.new.files ≡ world.old.files }
{
    let Rounded { answer, trouble } = rounded;
    match answer {
        Ok(round) => print_round(round, trouble, world),
        Err(fault) => outcome_after(trouble, outcome_faulted(fault)),
    }
}

// Hands on the messages of these slots, gives their disks back, and tells what the round came to.
fn hand_over<T: Kit>(
    alloc: Global,
    turns: u32,
    rack: Rack<T::Disk>,
    mailers: &mut Vec<Box<dyn Mailer>>,
    world: &mut World<T>,
) -> Outcome
    requires { 0 < length mailers.old.items }
    ensures { ServesRound (post_of (map (λ m. mailer_view m) mailers.old.items) (map (λ m. mailer_view m) mailers.new.items))
        turns rack result world.old world.new }
{
    let mut rack = rack;
    let rounded = hand_on(alloc, turns, &mut rack, mailers, world);
    put_disks(rack.close(), world);
    tell_round(rounded, world)
}

// How many turns there may be: as many as there are slots.
fn turns_for<T: Kit>(world: &World<T>) -> u32
    requires { length world.now.inputs.disks ≤ 64 }
    ensures { result ≡ length world.now.inputs.disks }
{
    disk_count(world) as u32
}

/// Opens the slots, and hands on the messages of the full ones in one round.
pub(crate) fn hand_mail<T: Kit>(
    alloc: Global,
    mailers: &mut Vec<Box<dyn Mailer>>,
    world: &mut World<T>,
) -> Outcome
    requires few { length world.old.inputs.disks ≤ 64 }
    requires some { 0 < length mailers.old.items }
    ensures { HandsMail (post_of (map (λ m. mailer_view m) mailers.old.items) (map (λ m. mailer_view m) mailers.new.items))
        result world.old world.new }
{
    let turns = turns_for(world);
    match open_rack(alloc, world) {
        Ok(rack) => hand_over(alloc, turns, rack, mailers, world),
        Err(outcome) => outcome,
    }
}
