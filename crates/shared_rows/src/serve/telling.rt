//! What is told of a report.
use crate::serve::door::Door;
use crate::serve::spool::add_freed;
use acceptors::Acceptor;
use auth_events::Entry;
use fw_memory::{MemDisk, MemKeeper};
use fw_types::{Ending, NoMemory};
use fwtk_serve::{Report, Served};
use lines_of_rows::{Told, add_number, add_word};
use std::alloc::Global;
use std::sync::Wait;

fn tell_ending(out: &mut Told, ending: Ending) {
    match ending {
        Ending::Done => add_word(out, b"done"),
        Ending::Idle => add_word(out, b"idle"),
        Ending::Denied { line } => {
            add_word(out, b"denied by line");
            add_number(out, u64::from(line));
        }
        _ => add_word(out, b"another ending"),
    }
}

fn entry_at(history: &[Entry], place: u64) -> Option<&Entry> {
    usize::try_from(place).ok().and_then(|at| history.get(at))
}

// Whether the entry at this place is of this session.
fn is_of(history: &[Entry], place: u64, sid: u64) -> bool {
    match entry_at(history, place) {
        Some(entry) => entry.sid == sid,
        None => false,
    }
}

// Whether all these places are those of one session, and rise.
fn are_own(history: &[Entry], places: &[u64]) -> bool {
    let Some(sid) = places.first() else {
        return true;
    };
    let mut least = 0u64;
    for place in places {
        if *place < least || !is_of(history, *place, *sid) {
            return false;
        }
        least = place.saturating_add(1);
    }
    true
}

fn tell_served(out: &mut Told, served: &Served, history: &[Entry]) {
    tell_ending(out, served.ending);
    add_number(out, served.places.len() as u64);
    if !are_own(history, &served.places) {
        add_word(out, b"not its own");
    }
}

fn tell_sessions(out: &mut Told, sessions: &[Served], history: &[Entry]) {
    add_word(out, b"|");
    for served in sessions {
        tell_served(out, served, history);
    }
}

/// The sessions of each door, with how many entries each has; how many entries there are, and how many workers wanted memory.
pub(crate) fn tell_report<A: Acceptor>(out: &mut Told, report: &Report<MemKeeper, A, MemDisk>) {
    for sessions in &report.sessions {
        tell_sessions(out, sessions, &report.history);
    }
    add_word(out, b"| history");
    add_number(out, report.history.len() as u64);
    add_word(out, b"short");
    add_number(out, u64::from(report.short));
}

// How many of these lines begin so.
fn lines_with(text: &[u8], front: &[u8]) -> u64 {
    let mut count = 0u64;
    for line in text.split(|byte| *byte == b'\n') {
        if line.starts_with(front) {
            count = count.saturating_add(1);
        }
    }
    count
}

// How many lines that begin so were told to all clients.
fn tell_lines<H>(out: &mut Told, doors: &[Door<'_, H>], front: &[u8]) {
    let mut count = 0u64;
    for door in doors {
        count = count.saturating_add(lines_with(door.given(), front));
    }
    add_number(out, count);
    add_word(out, front);
}

/// Also how many lines of a kind all clients were told.
pub(crate) fn tell_told<H: Wait + Sync>(
    out: &mut Told,
    report: &Report<MemKeeper, Door<'_, H>, MemDisk>,
) {
    tell_report(out, report);
    add_word(out, b"| told");
    tell_lines(out, &report.doors, b"ok");
    tell_lines(out, &report.doors, b"denied wrong response");
    tell_lines(out, &report.doors, b"denied sleeping");
}

// How many lines that begin so stand behind the first that begins so.
fn lines_behind(text: &[u8], first: &[u8], front: &[u8]) -> u64 {
    let mut count = 0u64;
    let mut is_behind = false;
    for line in text.split(|byte| *byte == b'\n') {
        if is_behind && line.starts_with(front) {
            count = count.saturating_add(1);
        }
        if line.starts_with(first) {
            is_behind = true;
        }
    }
    count
}

/// How often each client was told 250 for the data of its message; what the rounds came to; the messages that the mailer took, and
/// those that the free slots had last.
pub(crate) fn tell_mail<H: Wait + Sync>(
    alloc: Global,
    out: &mut Told,
    report: Report<MemKeeper, Door<'_, H>, MemDisk>,
    taken: &[u8],
) -> Result<(), NoMemory> {
    tell_report(out, &report);
    add_word(out, b"| for the data");
    for door in &report.doors {
        add_number(out, lines_behind(door.given(), b"354", b"250"));
    }
    add_word(out, b"| accepted");
    add_number(out, u64::from(report.round.accepted));
    add_word(out, b"refused");
    add_number(out, u64::from(report.round.refused));
    add_word(out, b"failed");
    add_number(out, u64::from(report.round.failed));
    add_word(out, b"broken");
    add_number(out, u64::from(report.round.broken));
    add_word(out, b"starved");
    add_number(out, u64::from(report.starved));
    add_word(out, b"| taken");
    add_word(out, taken);
    let Report { rack, .. } = report;
    let disks = rack.close();
    add_word(out, b"| free after");
    add_freed(alloc, out, &disks)
}
