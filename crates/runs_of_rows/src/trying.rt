//! The rows of a file, one after the other.

use crate::comparing::Difference;
use crate::devices::{Records, copy_of};
use crate::plan::{Plan, UNBROKEN, WHOLE};
use crate::report::{Counts, Report};
use crate::runner::Runner;
use crate::running::run_plan;
use crate::sweeps::{Swept, sweep};
use format_of_rows::Row;
use fw_types::{Name, NoMemory, Octets};
use std::alloc::Global;
use std::thread::Threads;

// The run of a row as it is said.
fn plan_of<'a>(
    alloc: Global,
    row: &'a Row,
    records: &'a [(Name, Octets)],
    piece: usize,
) -> Plan<'a> {
    Plan {
        alloc,
        row,
        records,
        piece,
        broken: UNBROKEN,
    }
}

fn console_row(alloc: Global, said: &[u8]) -> Result<Row, NoMemory> {
    match Row::console(alloc, said) {
        Ok(row) => Ok(row),
        Err(_) => Err(NoMemory),
    }
}

// Runs what is said at the console. The records are those that are there afterwards.
fn run_console<H: Threads + Sync, R: Runner>(
    rt: &H,
    runner: &R,
    alloc: Global,
    said: &[u8],
    records: &mut Records,
    difference: &mut Difference,
) -> Result<(), NoMemory> {
    let before = copy_of(alloc, records)?;
    let row = console_row(alloc, said)?;
    let plan = plan_of(alloc, &row, &before, WHOLE);
    let run = run_plan(rt, runner, &plan, 0, records, difference);
    drop(row);
    run
}

// Runs all that is said at the console before the row, up to the first run in which something differs.
fn run_consoles<H: Threads + Sync, R: Runner>(
    rt: &H,
    runner: &R,
    alloc: Global,
    row: &Row,
    records: &mut Records,
    swept: &mut Swept,
) -> Result<(), NoMemory> {
    for said in &row.setting.console {
        if swept.difference.is_none() {
            run_console(rt, runner, alloc, said, records, &mut swept.difference)?;
        }
    }
    Ok(())
}

// The records that an earlier row left.
fn left_at(earlier: &[Records], place: usize) -> &[(Name, Octets)] {
    match earlier.get(place) {
        Some(left) => left,
        None => &[],
    }
}

// The records that the row has at first, or that an earlier one left.
fn first_records(alloc: Global, row: &Row, earlier: &[Records]) -> Result<Records, NoMemory> {
    match row.setting.after {
        Some(place) => copy_of(alloc, left_at(earlier, place)),
        None => copy_of(alloc, &row.setting.stored),
    }
}

fn pieces_of(row: &Row) -> &[usize] {
    if row.trial.pieces.is_empty() {
        return &[1, 3, WHOLE];
    }
    &row.trial.pieces
}

// Runs the row once for each of its pieces, up to the first run in which something differs.
fn run_pieces<H: Threads + Sync, R: Runner>(
    rt: &H,
    runner: &R,
    alloc: Global,
    row: &Row,
    records: &[(Name, Octets)],
    swept: &mut Swept,
) -> Result<(), NoMemory> {
    for piece in pieces_of(row) {
        if swept.difference.is_none() {
            let plan = plan_of(alloc, row, records, *piece);
            let (after, difference) = (&mut swept.after, &mut swept.difference);
            run_plan(rt, runner, &plan, 0, after, difference)?;
        }
    }
    Ok(())
}

// Runs the row over the records that it begins with.
fn run_row<H: Threads + Sync, R: Runner>(
    rt: &H,
    runner: &R,
    alloc: Global,
    row: &Row,
    records: &mut Records,
    swept: &mut Swept,
) -> Result<(), NoMemory> {
    run_consoles(rt, runner, alloc, row, records, swept)?;
    run_pieces(rt, runner, alloc, row, records, swept)
}

// Keeps what the row left, and sweeps.
fn sweep_row<H: Threads + Sync, R: Runner>(
    rt: &H,
    runner: &R,
    alloc: Global,
    row: &Row,
    records: &[(Name, Octets)],
    left: &mut Vec<Records>,
    swept: &mut Swept,
) -> Result<(), NoMemory> {
    left.push(copy_of(alloc, &swept.after)?)?;
    sweep(rt, runner, alloc, row, records, swept)
}

// Runs the row, keeps what its keeper has after it, and sweeps.
fn try_run<H: Threads + Sync, R: Runner>(
    rt: &H,
    runner: &R,
    alloc: Global,
    row: &Row,
    left: &mut Vec<Records>,
    swept: &mut Swept,
) -> Result<(), NoMemory> {
    let mut records = first_records(alloc, row, left)?;
    run_row(rt, runner, alloc, row, &mut records, swept)?;
    sweep_row(rt, runner, alloc, row, &records, left, swept)
}

// Looks at how the row's words are read.
fn try_words<R: Runner>(
    runner: &R,
    alloc: Global,
    row: &Row,
    command: &[u8],
    left: &mut Vec<Records>,
    swept: &mut Swept,
) -> Result<(), NoMemory> {
    left.push(Vec::new(alloc))?;
    runner.misread(alloc, row, command, &mut swept.difference)
}

fn try_row<H: Threads + Sync, R: Runner>(
    rt: &H,
    runner: &R,
    alloc: Global,
    row: &Row,
    left: &mut Vec<Records>,
    swept: &mut Swept,
) -> Result<(), NoMemory> {
    match &row.wanted.reading.command {
        Some(command) => try_words(runner, alloc, row, command, left, swept),
        None => try_run(rt, runner, alloc, row, left, swept),
    }
}

// Tries a row, and tells of it.
fn tell_row<H: Threads + Sync, R: Runner>(
    rt: &H,
    runner: &R,
    alloc: Global,
    row: &Row,
    left: &mut Vec<Records>,
    report: &mut Report,
    counts: &mut Counts,
) -> Result<(), NoMemory> {
    let mut swept = Swept {
        runs: 0,
        difference: Difference::none(),
        after: Vec::new(alloc),
    };
    try_row(rt, runner, alloc, row, left, &mut swept)?;
    report.tell(counts, row.name.bytes(), &swept)
}

/// Tries each of the rows, and tells of each.
///
/// # Errors
///
/// `NoMemory` where memory was wanting.
pub fn try_rows<H: Threads + Sync, R: Runner>(
    rt: &H,
    runner: &R,
    alloc: Global,
    rows: &[Row],
    report: &mut Report,
    counts: &mut Counts,
) -> Result<(), NoMemory> {
    let mut left = Vec::new(alloc);
    for row in rows {
        tell_row(rt, runner, alloc, row, &mut left, report, counts)?;
    }
    Ok(())
}
