//! Four threads, each of which opens and closes sessions of one book beside the others.
ghost use Rattle.turn_lock.specs.Known.{IsPassOf};

use crate::book::jobs::Job;
use crate::book::opening::{Users, open};
use crate::book::passes::history_of;
use crate::book::sharing::{Works, share};
use crate::book::threads::Work;
use auth_events::Entry;
use auth_port::{Pass, Turns};
use fw_types::NoMemory;
use lines_of_rows::{Told, add, add_number, add_word};
use std::alloc::Global;
use std::sync::Wait;
use std::thread::Threads;

const VISITS: Job = Job::Visit { times: 250 };

fn visited<H: Threads + Wait + Sync>(
    rt: &H,
    alloc: Global,
    turns: Turns<Users>,
    pass: Pass<Users>,
) -> (Vec<Entry>, Works)
    requires { IsPassOf turns pass }
{
    let (pass, works) = share(rt, alloc, &turns, pass, VISITS);
    (history_of(rt, turns, pass), works)
}

fn held<H: Threads + Wait + Sync>(rt: &H, alloc: Global) -> Result<(Vec<Entry>, Works), NoMemory> {
    match open(alloc, 1 << 20) {
        Ok((turns, pass)) => Ok(visited(rt, alloc, turns, pass)),
        Err(NoMemory) => Err(NoMemory),
    }
}

// Whether the entry at this place is one of this thread.
fn is_of(history: &[Entry], place: u64, thread: u64) -> bool {
    match usize::try_from(place).ok().and_then(|at| history.get(at)) {
        Some(entry) => entry.at == thread,
        None => false,
    }
}

// Whether the entries at these places are those of this thread, and the places rise.
fn are_of(history: &[Entry], places: &[u64], thread: u64) -> bool {
    let mut least = 0u64;
    for place in places {
        if *place < least || !is_of(history, *place, thread) {
            return false;
        }
        least = place.saturating_add(1);
    }
    true
}

fn tell_thread(out: &mut Told, history: &[Entry], work: &Work, thread: u64) {
    add(out, b"\n");
    add(out, b"thread");
    add_number(out, thread);
    add_word(out, b"made");
    add_number(out, work.made);
    add_word(out, b"visits in");
    add_number(out, work.places.len() as u64);
    if are_of(history, &work.places, thread) {
        add_word(out, b"entries of its own");
    }
}

fn tell_threads(out: &mut Told, history: &[Entry], works: &Works) {
    let (one, two, three, four) = works;
    tell_thread(out, history, one, 1);
    tell_thread(out, history, two, 2);
    tell_thread(out, history, three, 3);
    tell_thread(out, history, four, 4);
}

/// How many entries there are; that each visit was answered, and each thread has the places of its own entries.
pub(crate) fn tell_visits<H: Threads + Wait + Sync>(rt: &H, alloc: Global, out: &mut Told) {
    match held(rt, alloc) {
        Ok((history, works)) => {
            add_number(out, history.len() as u64);
            add_word(out, b"entries");
            tell_threads(out, &history, &works);
        }
        Err(NoMemory) => add_word(out, b"no memory"),
    }
}
