//! One run of a row.

use crate::broken::broken_differs;
use crate::comparing::Difference;
use crate::devices::{Records, both, copy_of, devices_of, keeper_of, port_of};
use crate::plan::{Plan, WHOLE};
use crate::runner::{Ended, Runner};
use crate::seen::table_of;
use crate::verdicts::usual;
use format_of_rows::Part;
use fw_types::NoMemory;
use std::thread::Threads;

fn name_of(part: Part) -> &'static [u8] {
    match part {
        Part::Table => b"the table fails at call ",
        Part::TableIdle => b"the table is idle at call ",
        Part::Client => b"the client fails at call ",
        Part::ClientIdle => b"the client is idle at call ",
        Part::Output => b"the output fails at call ",
        Part::OutputRoom => b"the output has bytes of room, ",
        Part::Log => b"the log fails at call ",
        Part::LogRoom => b"the log has bytes of room, ",
        Part::Keeper => b"the keeper fails at call ",
        Part::Port => b"the port fails at call ",
        Part::Program => b"a program can't be started at call ",
        Part::Dialer => b"the dialer refuses call ",
        Part::Server => b"the server fails at call ",
        Part::ServerIdle => b"the server is idle at call ",
        Part::Given => b"the server takes nothing at call ",
        Part::GivenRoom => b"the server has bytes of room, ",
        Part::Data => b"a data link fails at call ",
        Part::DataIdle => b"a data link is idle at call ",
        Part::DataGiven => b"a data link takes nothing at call ",
        Part::DataRoom => b"a data link has bytes of room, ",
        Part::Remote => b"the server elsewhere fails at call ",
        Part::RemoteIdle => b"the server elsewhere is idle at call ",
        Part::RemoteGiven => b"the server elsewhere takes nothing at call ",
        Part::RemoteRoom => b"the server elsewhere has bytes of room, ",
    }
}

// Says how a run in which something differs was cut, and what failed in it.
fn say_where(difference: &mut Difference, plan: &Plan) {
    if plan.piece != WHOLE {
        difference.say(b", in pieces of ");
        difference.say_number(plan.piece as u64);
    }
    if let Some(part) = plan.broken.part {
        difference.say(b", where ");
        difference.say(name_of(part));
        difference.say_number(plan.broken.at);
    }
}

// Looks for what differs in a run. A call past those that are made changes nothing.
fn was_differs(plan: &Plan, calls: u64, was: &mut Ended, difference: &mut Difference) {
    if plan.broken.at < calls {
        broken_differs(plan, was, difference);
    } else {
        difference.compare(&usual(plan.row, plan.records), was);
    }
}

// The same, with how the run was cut and what failed in it.
fn run_differs(plan: &Plan, calls: u64, was: &mut Ended, difference: &mut Difference) {
    was_differs(plan, calls, was, difference);
    if !difference.is_none() {
        say_where(difference, plan);
    }
}

// Runs the plan.
fn ended_by<H: Threads + Sync, R: Runner>(
    rt: &H,
    runner: &R,
    plan: &Plan,
) -> Result<Ended, NoMemory> {
    let made = both(keeper_of(plan), devices_of(plan));
    let ((keeper, devices), port) = both(made, port_of(plan))?;
    Ok(runner.run(rt, plan.alloc, &plan.row.setting, devices, keeper, port))
}

// Looks for what differs in a run. The records are then those that its keeper has.
fn judge(
    plan: &Plan,
    calls: u64,
    was: &mut Ended,
    after: &mut Records,
    difference: &mut Difference,
) -> Result<(), NoMemory> {
    *after = copy_of(plan.alloc, table_of(&was.keeper))?;
    run_differs(plan, calls, was, difference);
    Ok(())
}

/// Looks for what differs where the plan is run, in which something fails at one of so many calls. The records are then
/// those that its keeper has.
pub(crate) fn run_plan<H: Threads + Sync, R: Runner>(
    rt: &H,
    runner: &R,
    plan: &Plan,
    calls: u64,
    after: &mut Records,
    difference: &mut Difference,
) -> Result<(), NoMemory> {
    let mut was = ended_by(rt, runner, plan)?;
    let judged = judge(plan, calls, &mut was, after, difference);
    drop(was);
    judged
}
