//! The commands that need no table: `drill`, `spool-init`, `smapd`, `otp-calc` and `otp-hex`.
ghost use Rattle.std.specs.Prelude.{◌≡◌, ◌≢◌, ◌≤◌, ◌<◌, length, map, IfErr, IfOk, Ok, Err};
ghost use Rattle.drill_lines.specs.Drill.{drilled, tally_text};
ghost use Rattle.drill_lines.specs.declared.drill_fault.DrillFault.TheVariants as faults;
ghost use Rattle.fw_outside.specs.SinkView.{Gives};
ghost use Rattle.bastion.specs.Status.{JobLeavesMailers};
ghost use Rattle.bastion.specs.WorldView.{post_of};
ghost use Rattle.bastion.specs.Works.{printed};
ghost use Rattle.bastion.specs.Jobs.{DoesJob, Drills, Formats, Inits, IsFormatted, IsUnformatted, PrintsAlone, drill_refused, formatted_text};

use crate::calculating::{calculate, spell};
use crate::handing_on::hand_mail;
use crate::mailing::disk_count;
use crate::outcome::append_usize;
use crate::{Device, Job, Kit, Outcome, Refusal, Step, World};
use arrayvec::ArrayVec;
use client_service::LogLine;
use drill_lines::{Drill, DrillFault, count_drill, tally_line};
use fw_disk::Disk;
use fw_mail::Mailer;
use fw_outside::Failed;
use fw_types::append;
use spool_slots::format_in_place;
use std::alloc::Global;

fn printed(printing: Result<(), Failed>) -> Outcome
    ensures { result ≡ printed printing }
{
    match printing {
        Ok(()) => Outcome::Done,
        Err(Failed) => Outcome::Failed(Device::Output),
    }
}

fn drill_refused(fault: DrillFault) -> Outcome
    ensures { result ≡ drill_refused fault }
{
    match fault {
        DrillFault::Table(fault) => Outcome::Unread(Refusal::Table(fault)),
        DrillFault::Rule(fault) => Outcome::Unread(Refusal::Rule(fault)),
        DrillFault::NoMemory => Outcome::NoMemory(Step::Drill),
    }
}

/// Prints a text.
pub(crate) fn print_alone<T: Kit>(text: &[u8], world: &mut World<T>) -> Outcome
    ensures { PrintsAlone text.now result world.old world.new }
{
    printed(world.print(text))
}

// Prints the counts of a drill.
fn run_drill<T: Kit>(alloc: Global, numbers: Drill, world: &mut World<T>) -> Outcome
    ensures { Drills numbers result world.old world.new }
{
    match count_drill(alloc, numbers) {
        Ok(tally) => print_alone(tally_line(numbers, tally).as_slice(), world),
        Err(fault) => drill_refused(fault),
    }
}

// Formats all disks in their order, or up to one that fails.
fn format_disks<D: Disk>(disks: &mut [D]) -> Result<(), usize>
    ensures { Formats result (map D.disk_view disks.old) (map D.disk_view disks.new) }
{
    let mut slot = 0;
    while slot < disks.len() {
        match format_in_place(&mut disks[slot]) {
            Ok(()) => slot += 1,
            Err(_) => return Err(slot),
        }
    }
    Ok(())
}

fn formatted_line(count: usize) -> LogLine
    ensures { result.items ≡ formatted_text count }
{
    let mut out = ArrayVec::new();
    append(&mut out, b"formatted ");
    append_usize(&mut out, count);
    append(&mut out, b"\n");
    out
}

// Formats the disks of a world.
fn format_all<T: Kit>(world: &mut World<T>) -> Result<(), usize>
    ensures formats { Formats result world.old.inputs.disks world.new.inputs.disks }
    ensures inputs { world.new.inputs ≡ record (world.old.inputs) { disks = world.new.inputs.disks } }
    ensures output { world.new.output ≡ world.old.output }
    ensures logs { world.new.logs ≡ world.old.logs }
    ensures files { world.new.files ≡ world.old.files }
{
    format_disks(&mut world.disks)
}

// Prints how many disks were formatted.
fn print_formatted<T: Kit>(count: usize, world: &mut World<T>) -> Outcome
    ensures { PrintsAlone (formatted_text count) result world.old world.new }
{
    print_alone(formatted_line(count).as_slice(), world)
}

// Formats all disks, and then prints how many they are.
fn init_spool<T: Kit>(world: &mut World<T>) -> Outcome
    ensures { Inits result world.old world.new }
{
    let count = disk_count(world);
    match format_all(world) {
        Ok(()) => print_formatted(count, world),
        Err(slot) => Outcome::Failed(Device::Disk(slot)),
    }
}

/// Does a job.
pub(crate) fn do_job<T: Kit>(
    alloc: Global,
    job: &Job,
    mailers: &mut Vec<Box<dyn Mailer>>,
    world: &mut World<T>,
) -> Outcome
    requires few { length world.old.inputs.disks ≤ 64 }
    requires some { 0 < length mailers.old.items }
    ensures does { DoesJob (post_of (map (λ m. mailer_view m) mailers.old.items) (map (λ m. mailer_view m) mailers.new.items))
        job.now result world.old world.new }
    ensures mailers { JobLeavesMailers (post_of (map (λ m. mailer_view m) mailers.old.items) (map (λ m. mailer_view m) mailers.new.items)) job.now }
{
    match job {
        Job::Drill(numbers) => run_drill(alloc, *numbers, world),
        Job::SpoolInit => init_spool(world),
        Job::Smapd => hand_mail(alloc, mailers, world),
        Job::OtpCalc(file) => calculate(alloc, file, world),
        Job::OtpHex(spelling) => spell(alloc, spelling, world),
    }
}
