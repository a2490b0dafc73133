//! A scene played again with a device that breaks.

use crate::after::is_closed;
use crate::fault::{Fault, Line, check};
use crate::play::{Opening, act, book_of};
use crate::setup::{Fails, Setup};
use crate::stage::Stage;
use crate::talk::{Break, Device};
use auth_events::Entry;
use fw_types::NoMemory;
use lines_of_rows::{cut_word, number_of};
use std::alloc::Global;
use std::thread::Threads;

// A book of the setup, whose keeper and port fail at these calls, or the line differs.
fn stage_of(
    alloc: Global,
    line: &Line<'_>,
    setup: &Setup,
    fails: Fails<'_>,
) -> Result<Stage, Fault> {
    match book_of(alloc, setup, fails)? {
        Opening::Open(stage) => Ok(stage),
        Opening::Shut(after) => {
            drop(after);
            Err(line.differs(b"the book isn't opened"))
        }
    }
}

// Plays the scene over this book: what comes of it, and the history then.
fn act_over<H: Threads + Sync>(
    rt: &H,
    alloc: Global,
    lines: &[Line<'_>],
    mut stage: Stage,
    broken: Option<Break>,
) -> (Result<(), Fault>, Vec<Entry>) {
    let acted = act(rt, alloc, lines, &mut stage, broken);
    (acted, stage.history())
}

// Whether a session of the Telnet gateway asked nothing, as one that stops before the first name.
fn is_unasked(lines: &[Line<'_>], history: &[Entry]) -> bool {
    for line in lines {
        if line.word() == "telnet" {
            return history.is_empty();
        }
    }
    false
}

// Plays the scene over this book with a break in its session.
fn break_over<H: Threads + Sync>(
    rt: &H,
    alloc: Global,
    lines: &[Line<'_>],
    line: &Line<'_>,
    stage: Stage,
    at: Break,
) -> Result<(), Fault> {
    let (acted, history) = act_over(rt, alloc, lines, stage, Some(at));
    acted?;
    check(
        line,
        is_closed(&history, 0) || is_unasked(lines, &history),
        b"the session isn't closed",
    )
}

// Plays the scene with a break in its session.
fn break_session<H: Threads + Sync>(
    rt: &H,
    alloc: Global,
    lines: &[Line<'_>],
    line: &Line<'_>,
    setup: &Setup,
    at: Break,
) -> Result<(), Fault> {
    let stage = stage_of(alloc, line, setup, setup.fails())?;
    break_over(rt, alloc, lines, line, stage, at)
}

// Breaks the device at each of its first calls.
fn break_device<H: Threads + Sync>(
    rt: &H,
    alloc: Global,
    lines: &[Line<'_>],
    line: &Line<'_>,
    setup: &Setup,
    device: Device,
    calls: u64,
) -> Result<(), Fault> {
    for call in 0..calls {
        break_session(rt, alloc, lines, line, setup, Break { device, call })?;
    }
    Ok(())
}

// The number of the line that differs and what is told, where one does.
fn difference(acted: Result<(), Fault>) -> Result<Option<(u64, bool)>, Fault> {
    match acted {
        Ok(()) => Ok(None),
        Err(Fault::NoMemory) => Err(Fault::NoMemory),
        Err(Fault::Differs { number, told }) => {
            let is_unkept = told.as_slice() == b"denied not kept".as_slice();
            Ok(Some((number, is_unkept)))
        }
    }
}

// Whether the last entry was kept, or there is none.
fn is_last_kept(history: &[Entry]) -> bool {
    match history.last() {
        Some(last) => last.kept,
        None => true,
    }
}

// The calls at which the keeper fails, with one more.
fn one_more(alloc: Global, setup: &Setup, call: u64) -> Result<Vec<u64>, NoMemory> {
    let mut fails = Vec::from_slice(alloc, &setup.fails)?;
    fails.push(call)?;
    Ok(fails)
}

// Compares where the scene differed: at the line of this number, for a change that isn't kept.
fn compare_break(
    line: &Line<'_>,
    history: &[Entry],
    wanted: Option<u64>,
    number: u64,
    is_unkept: bool,
) -> Result<(), Fault> {
    check(
        line,
        wanted == Some(number),
        b"another request calls the keeper",
    )?;
    check(
        line,
        is_unkept && !is_last_kept(history),
        b"a change that isn't kept is answered otherwise",
    )
}

// Plays the scene over this book, and compares where it differs: at the line of this number, or nowhere.
fn differ_over<H: Threads + Sync>(
    rt: &H,
    alloc: Global,
    lines: &[Line<'_>],
    line: &Line<'_>,
    stage: Stage,
    wanted: Option<u64>,
) -> Result<(), Fault> {
    let (acted, history) = act_over(rt, alloc, lines, stage, None);
    match difference(acted)? {
        None => check(line, wanted.is_none(), b"a call of the keeper isn't made"),
        Some((number, is_unkept)) => compare_break(line, &history, wanted, number, is_unkept),
    }
}

// Plays the scene with a keeper that fails at one call more, and compares where it differs: at this line, or
// nowhere.
fn break_call<H: Threads + Sync>(
    rt: &H,
    alloc: Global,
    lines: &[Line<'_>],
    line: &Line<'_>,
    setup: &Setup,
    call: u64,
    wanted: Option<u64>,
) -> Result<(), Fault> {
    let fails = one_more(alloc, setup, call)?;
    let fails = Fails {
        keeper: &fails,
        port: &setup.port_fails,
    };
    let stage = stage_of(alloc, line, setup, fails)?;
    differ_over(rt, alloc, lines, line, stage, wanted)
}

// Fails each of the keeper's calls in turn, and one more.
fn break_keeper<H: Threads + Sync>(
    rt: &H,
    alloc: Global,
    lines: &[Line<'_>],
    line: &Line<'_>,
    setup: &Setup,
) -> Result<(), Fault> {
    let mut call = 1u64;
    for row in lines {
        if row.is_change() {
            let fails_anyway = setup.fails.as_slice().contains(&call);
            let wanted = if fails_anyway { None } else { Some(row.number) };
            break_call(rt, alloc, lines, line, setup, call, wanted)?;
            call = call.saturating_add(1);
        }
    }
    break_call(rt, alloc, lines, line, setup, call, None)
}

// Whether these are the requests that were answered where the link fails at this one of so many, of which the last
// closes the session: those before it, and where a session is open then and wasn't asked to close, its Close.
fn is_cut(history: &[Entry], call: u64, calls: u64) -> bool {
    let entries = history.len() as u64;
    if call == 0 || call.saturating_add(1) == calls {
        return entries == call && !is_closed(history, 0);
    }
    entries == call.saturating_add(1) && is_closed(history, 0)
}

// Plays the scene over this stage, whose port fails at this one of so many calls.
fn cut_over<H: Threads + Sync>(
    rt: &H,
    alloc: Global,
    lines: &[Line<'_>],
    line: &Line<'_>,
    stage: Stage,
    call: u64,
    calls: u64,
) -> Result<(), Fault> {
    let device = Device::Port;
    let (acted, history) = act_over(rt, alloc, lines, stage, Some(Break { device, call }));
    acted?;
    check(
        line,
        is_cut(&history, call, calls),
        b"other requests are answered",
    )
}

// Fails each of the port's calls in turn.
fn break_port<H: Threads + Sync>(
    rt: &H,
    alloc: Global,
    lines: &[Line<'_>],
    line: &Line<'_>,
    setup: &Setup,
    calls: u64,
) -> Result<(), Fault> {
    for call in 0..calls {
        let fails = Fails {
            keeper: &setup.fails,
            port: &[call],
        };
        let stage = stage_of(alloc, line, setup, fails)?;
        cut_over(rt, alloc, lines, line, stage, call, calls)?;
    }
    Ok(())
}

// Does what a line `sweep` says.
fn sweep_by<H: Threads + Sync>(
    rt: &H,
    alloc: Global,
    lines: &[Line<'_>],
    line: &Line<'_>,
    setup: &Setup,
) -> Result<(), Fault> {
    let text = line.rest(alloc)?;
    let (device, calls) = cut_word(&text);
    let calls = number_of(calls);
    match device {
        b"keeper" => break_keeper(rt, alloc, lines, line, setup),
        b"source" => break_device(rt, alloc, lines, line, setup, Device::Source, calls),
        b"idle" => break_device(rt, alloc, lines, line, setup, Device::Idle, calls),
        b"sink" => break_device(rt, alloc, lines, line, setup, Device::Sink, calls),
        b"port" => break_port(rt, alloc, lines, line, setup, calls),
        _ => Err(line.differs(b"no such device")),
    }
}

/// Plays the scene again as its lines `sweep` say.
pub(crate) fn sweep<H: Threads + Sync>(
    rt: &H,
    alloc: Global,
    lines: &[Line<'_>],
    setup: &Setup,
) -> Result<(), Fault> {
    for line in lines {
        if line.word() == "sweep" {
            sweep_by(rt, alloc, lines, line, setup)?;
        }
    }
    Ok(())
}
