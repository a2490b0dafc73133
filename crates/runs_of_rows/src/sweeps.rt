//! Runs in which a device fails at each of its calls in turn.

use crate::comparing::Difference;
use crate::devices::Records;
use crate::gates::gifts;
use crate::gateways::relayed;
use crate::plan::{Broken, Plan, UNBROKEN, WHOLE};
use crate::runner::Runner;
use crate::running::run_plan;
use crate::verdicts::{is_ftp, is_gate, is_plug};
use format_of_rows::{Called, Part, Row, Tried};
use fw_types::{Name, NoMemory, Octets};
use std::alloc::Global;
use std::thread::Threads;

/// So many runs were as they must be, or this was the first thing that wasn't.
#[derive(Drop)]
pub(crate) struct Swept {
    pub(crate) runs: u64,
    pub(crate) difference: Difference,
    /// What the keeper has after the last run.
    pub(crate) after: Records,
}

// One more run, unless something differs already.
fn sweep_call<H: Threads + Sync, R: Runner>(
    rt: &H,
    runner: &R,
    plan: &Plan,
    calls: u64,
    swept: &mut Swept,
) -> Result<(), NoMemory> {
    if swept.difference.is_none() {
        let (after, difference) = (&mut swept.after, &mut swept.difference);
        run_plan(rt, runner, plan, calls, after, difference)?;
        swept.runs = swept.runs.saturating_add(1);
    }
    Ok(())
}

// The runs in which the part fails at each call, and at the one after the last.
fn sweep_part<H: Threads + Sync, R: Runner>(
    rt: &H,
    runner: &R,
    plan: &Plan,
    part: Part,
    calls: u64,
    swept: &mut Swept,
) -> Result<(), NoMemory> {
    for at in 0..calls.saturating_add(1) {
        let broken = Broken {
            part: Some(part),
            at,
        };
        sweep_call(rt, runner, &plan.with(broken), calls, swept)?;
    }
    Ok(())
}

// How many calls there are in these pieces, where byte by byte there are so many of so many bytes.
fn calls_in(calls: u64, bytes: usize, piece: usize) -> u64 {
    let bytes = bytes as u64;
    let ends = calls.saturating_sub(bytes);
    calls
        .min(bytes)
        .div_ceil((piece as u64).max(1))
        .saturating_add(ends)
}

fn table_bytes(row: &Row) -> usize {
    match row.setting.files.first() {
        Some(file) => file.bytes.len(),
        None => 0,
    }
}

// How many bytes are said at the other ends of the links, of the data links or of all others.
fn said_bytes(row: &Row, is_data: bool) -> usize {
    let mut bytes: usize = 0;
    for link in &row.setting.links {
        if link.is_data == is_data {
            bytes = bytes.saturating_add(link.said.len());
        }
    }
    bytes
}

fn remote_bytes(row: &Row) -> usize {
    match &row.setting.remote {
        Some(said) => said.len(),
        None => 0,
    }
}

// How many bytes a device gives or is given whose calls there are more of the smaller the pieces; nothing for any other.
fn bytes_of(row: &Row, part: Part) -> Option<usize> {
    match part {
        Part::Client => Some(row.setting.client.len()),
        Part::Table => Some(table_bytes(row)),
        Part::Remote => Some(remote_bytes(row)),
        Part::Data | Part::DataGiven => Some(said_bytes(row, true)),
        Part::Server if is_ftp(row) => Some(said_bytes(row, false)),
        Part::Given if is_ftp(row) => None,
        Part::Given => Some(row.wanted.called.given.len()),
        Part::Server | Part::Output if is_gate(row) => Some(relayed(row).len()),
        Part::Server => Some(row.wanted.output.len()),
        Part::Output if is_plug(row) => Some(row.wanted.output.len()),
        _ => None,
    }
}

// How many calls there are of a device in the plan's pieces. The first piece that a server is given by the gateway begins
// where the connect line ends.
fn calls_of(plan: &Plan, tried: Tried, bytes: usize) -> u64 {
    if tried.part == Part::Given && is_gate(plan.row) {
        let ends = tried.calls.saturating_sub(bytes as u64);
        return gifts(plan).saturating_add(ends);
    }
    calls_in(tried.calls, bytes, plan.piece)
}

// Nothing comes of a device of this kind.
fn idle_of(part: Part) -> Option<Part> {
    match part {
        Part::Client => Some(Part::ClientIdle),
        Part::Table => Some(Part::TableIdle),
        Part::Server => Some(Part::ServerIdle),
        Part::Data => Some(Part::DataIdle),
        Part::Remote => Some(Part::RemoteIdle),
        _ => None,
    }
}

// A device fails at each call, and where it is a source, is idle at each.
fn sweep_calls<H: Threads + Sync, R: Runner>(
    rt: &H,
    runner: &R,
    plan: &Plan,
    part: Part,
    calls: u64,
    swept: &mut Swept,
) -> Result<(), NoMemory> {
    sweep_part(rt, runner, plan, part, calls, swept)?;
    match idle_of(part) {
        Some(idle) => sweep_part(rt, runner, plan, idle, calls, swept),
        None => Ok(()),
    }
}

// Whether it is the output of a session whose bytes come one by one. That of the FTP gateway has other calls then.
fn is_cut_output(plan: &Plan, part: Part) -> bool {
    plan.piece == 1 && part == Part::Output && !is_ftp(plan.row)
}

// A device whose calls depend on the pieces fails however the bytes come, the output of a session where they come whole or
// byte by byte, and any other one where they come whole.
fn sweep_cut<H: Threads + Sync, R: Runner>(
    rt: &H,
    runner: &R,
    plan: &Plan,
    tried: Tried,
    swept: &mut Swept,
) -> Result<(), NoMemory> {
    let part = tried.part;
    match bytes_of(plan.row, part) {
        Some(bytes) => {
            let calls = calls_of(plan, tried, bytes);
            sweep_calls(rt, runner, plan, part, calls, swept)
        }
        None if plan.piece == WHOLE || is_cut_output(plan, part) => {
            sweep_part(rt, runner, plan, part, tried.calls, swept)
        }
        None => Ok(()),
    }
}

// How many bytes the last link is given: of a row of the FTP gateway, the one to its server.
fn last_given(called: &Called) -> usize {
    let before = called.ends.last().copied().unwrap_or(0);
    called.given.len().saturating_sub(before)
}

// The runs in which a sink lacks room.
fn sweep_room<H: Threads + Sync, R: Runner>(
    rt: &H,
    runner: &R,
    plan: &Plan,
    part: Part,
    swept: &mut Swept,
) -> Result<(), NoMemory> {
    let wanted = &plan.row.wanted;
    let (room, bytes) = match part {
        Part::Output => (Part::OutputRoom, wanted.output.len()),
        Part::Log => (Part::LogRoom, wanted.log.len()),
        Part::Given => (Part::GivenRoom, last_given(&wanted.called)),
        Part::DataGiven => (Part::DataRoom, said_bytes(plan.row, true)),
        Part::RemoteGiven => (Part::RemoteRoom, wanted.called.remote.len()),
        _ => return Ok(()),
    };
    sweep_part(rt, runner, plan, room, bytes as u64, swept)
}

fn sweep_device<H: Threads + Sync, R: Runner>(
    rt: &H,
    runner: &R,
    plan: &Plan,
    tried: Tried,
    swept: &mut Swept,
) -> Result<(), NoMemory> {
    sweep_cut(rt, runner, plan, tried, swept)?;
    if plan.piece == WHOLE {
        return sweep_room(rt, runner, plan, tried.part, swept);
    }
    Ok(())
}

fn sweep_devices<H: Threads + Sync, R: Runner>(
    rt: &H,
    runner: &R,
    plan: &Plan,
    swept: &mut Swept,
) -> Result<(), NoMemory> {
    for tried in &plan.row.trial.sweep {
        sweep_device(rt, runner, plan, *tried, swept)?;
    }
    Ok(())
}

/// Runs the row with each device that it names failing at each of its calls in turn: the table, the client, the server and
/// the sides of a relay whole, in pieces of 20 and byte by byte, the output of a session whole and byte by byte, and any
/// other device whole. What differed already is kept.
pub(crate) fn sweep<H: Threads + Sync, R: Runner>(
    rt: &H,
    runner: &R,
    alloc: Global,
    row: &Row,
    records: &[(Name, Octets)],
    swept: &mut Swept,
) -> Result<(), NoMemory> {
    for piece in [WHOLE, 20, 1] {
        let plan = Plan {
            alloc,
            row,
            records,
            piece,
            broken: UNBROKEN,
        };
        sweep_devices(rt, runner, &plan, swept)?;
    }
    Ok(())
}
