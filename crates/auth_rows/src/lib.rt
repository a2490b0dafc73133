//! Scenes of the book of `auth_machine` at work, as files have them: histories of requests with their
//! replies, whole sessions of `authsrv` and of the Telnet gateway over a book, what the history has afterwards, and what the keeper has.
//!
//! `docs/tests-scenes.md` has the form of a scene, and says what is printed.
#![tactic(auto)]

mod after;
mod asking;
mod fault;
mod gateway;
mod known;
mod play;
mod setup;
mod stage;
mod sweeps;
mod talk;

use auth_events::Entry;
use fault::{Fault, Line};
use lines_of_rows::{Count, Sums, print_behind, read_file};
use play::play;
use std::io;
use std::mem::size_of;
use std::thread::Threads;

// What an entry takes, on which the size of a history counts.
const _: () = prove!(size_of::<Entry>() == 496);

fn print_difference(rt: &HostRuntime, name: &str, number: u64, told: &[u8]) -> io::Result<()> {
    let first = format!(in rt.alloc(); "differs {name} at {number}: ")?;
    print_behind(rt, &first, told)
}

// Plays the scene of these lines, and prints what comes of it.
fn play_named<H: Threads + Sync>(
    threads: &H,
    rt: &HostRuntime,
    name: &str,
    lines: &[Line<'_>],
) -> io::Result<Count> {
    let differ = match play(threads, rt.alloc(), lines) {
        Ok(()) => {
            println!(rt; "ok {name}")?;
            0
        }
        Err(Fault::NoMemory) => {
            print_difference(rt, name, 0, b"no memory")?;
            1
        }
        Err(Fault::Differs { number, told }) => {
            print_difference(rt, name, number, told.as_slice())?;
            1
        }
    };
    Ok(Count { rows: 1, differ })
}

// What stands before the first scene is to say nothing.
fn pass_over(rt: &HostRuntime, lines: &[Line<'_>]) -> io::Result<Count> {
    for line in lines {
        if !line.is_blank() {
            print_difference(rt, "-", line.number, b"before the first scene")?;
            return Ok(Count { rows: 1, differ: 1 });
        }
    }
    Ok(Count::none())
}

// Plays the scene that the first line begins, or passes over what stands before the first scene.
fn play_scene<H: Threads + Sync>(
    threads: &H,
    rt: &HostRuntime,
    lines: &[Line<'_>],
) -> io::Result<Count> {
    let Some(first) = lines.first() else {
        return Ok(Count::none());
    };
    match first.text.strip_prefix("scene ") {
        Some(name) => play_named(threads, rt, name, lines),
        None => pass_over(rt, lines),
    }
}

// Takes a line in, behind the lines of the scene that goes on. Where it begins a scene, plays those first.
fn take_line<'a, H: Threads + Sync>(
    threads: &H,
    rt: &HostRuntime,
    lines: &mut Vec<Line<'a>>,
    line: Line<'a>,
) -> io::Result<Count> {
    let mut count = Count::none();
    if line.text.starts_with("scene ") {
        count = play_scene(threads, rt, lines.as_slice())?;
        lines.clear();
    }
    lines.push(line)?;
    Ok(count)
}

// Plays the scenes of a text but the last one, whose lines are then left.
fn play_lines<'a, H: Threads + Sync>(
    threads: &H,
    rt: &HostRuntime,
    text: &'a str,
    lines: &mut Vec<Line<'a>>,
) -> io::Result<Count> {
    let mut count = Count::none();
    let mut number = 0u64;
    for line in text.lines() {
        number = number.saturating_add(1);
        count.add(take_line(threads, rt, lines, Line { number, text: line })?);
    }
    Ok(count)
}

// Plays the scenes of a text.
fn play_text<H: Threads + Sync>(threads: &H, rt: &HostRuntime, text: &str) -> io::Result<Count> {
    let mut lines: Vec<Line<'_>> = Vec::new(rt.alloc());
    let mut count = play_lines(threads, rt, text, &mut lines)?;
    count.add(play_scene(threads, rt, lines.as_slice())?);
    Ok(count)
}

fn play_file<H: Threads + Sync>(
    threads: &H,
    rt: &HostRuntime,
    name: &str,
) -> io::Result<Option<Count>> {
    match read_file(rt, name)? {
        Some(text) => Ok(Some(play_text(threads, rt, text.as_str())?)),
        None => Ok(None),
    }
}

/// Plays the scenes of these files, prints what comes of them, and tells whether all is as it is to be.
///
/// # Errors
///
/// What standard output answers.
pub fn play_files<H: Threads + Sync>(
    threads: &H,
    rt: HostRuntime,
    names: &[String],
) -> io::Result<bool> {
    let mut sums = Sums::none();
    for name in names {
        if !sums.turns(name.as_str()) {
            sums.add_file(play_file(threads, &rt, name.as_str())?);
        }
    }
    sums.print(&rt, "scenes")
}
