//! A drill by a plain scan: it draws its own numbers, and knows nothing of tables and rules.

use crate::jobs::running::run_on;
use fw_memory::Calls;
use fw_types::NoMemory;
use lines_of_rows::{Told, add, add_number, add_word, cut_word, number_of};
use std::alloc::Global;
use std::thread::Threads;

/// A line: whether it permits, and the first two numbers of the addresses that it is about.
#[derive(Clone, Copy)]
struct Line {
    permits: bool,
    place: (u64, u64),
}

/// The counts.
#[derive(Clone, Copy)]
struct Counts {
    permit: u64,
    deny: u64,
    none: u64,
}

/// The numbers that are drawn.
#[derive(Drop)]
struct Drawer {
    last: u64,
}

impl Drawer {
    fn draw(&mut self) -> u64 {
        let next = self.last.wrapping_mul(1_103_515_245).wrapping_add(12_345);
        self.last = next % 0x8000_0000;
        self.last / 0x1_0000
    }

    // The first two numbers of an address.
    fn place(&mut self) -> (u64, u64) {
        let first = self.draw() % 4;
        let second = self.draw() % 8;
        (first, second)
    }
}

fn lines_of(alloc: Global, drawer: &mut Drawer, count: u64) -> Result<Vec<Line>, NoMemory> {
    let mut lines = Vec::new(alloc);
    for _ in 0..count {
        let permits = drawer.draw() % 2 == 0;
        let place = drawer.place();
        lines.push(Line { permits, place })?;
    }
    Ok(lines)
}

// The first line about this place counts.
fn count_one(lines: &[Line], place: (u64, u64), counts: &mut Counts) {
    for line in lines {
        if line.place == place {
            if line.permits {
                counts.permit = counts.permit.saturating_add(1);
            } else {
                counts.deny = counts.deny.saturating_add(1);
            }
            return;
        }
    }
    counts.none = counts.none.saturating_add(1);
}

fn scan(alloc: Global, start: u64, count: u64) -> Result<Counts, NoMemory> {
    let mut drawer = Drawer { last: start };
    let lines = lines_of(alloc, &mut drawer, count)?;
    let mut counts = Counts {
        permit: 0,
        deny: 0,
        none: 0,
    };
    for _ in 0..count {
        let place = drawer.place();
        count_one(&lines, place, &mut counts);
    }
    Ok(counts)
}

// The line that a drill with these counts prints.
fn tell_counts(start: u64, count: u64, counts: Counts, out: &mut Told) {
    add(out, b"drill");
    add_number(out, start);
    add_number(out, count);
    add_word(out, b"permit");
    add_number(out, counts.permit);
    add_word(out, b"deny");
    add_number(out, counts.deny);
    add_word(out, b"none");
    add_number(out, counts.none);
    add(out, b"\n");
}

/// `scan START N => TEXT`: what a drill by the plain scan prints.
pub(crate) fn tell_scan(alloc: Global, asked: &[u8], out: &mut Told) -> Result<(), NoMemory> {
    let (start, count) = cut_word(asked);
    let (start, count) = (number_of(start), number_of(count));
    tell_counts(start, count, scan(alloc, start, count)?, out);
    Ok(())
}

/// `same START N => yes`: a run of `drill` prints what the scan does, and its counts add up to N.
pub(crate) fn tell_same<H: Threads + Sync>(
    threads: &H,
    alloc: Global,
    asked: &[u8],
    out: &mut Told,
) -> Result<(), NoMemory> {
    let (first, second) = cut_word(asked);
    let (start, count) = (number_of(first), number_of(second));
    let counts = scan(alloc, start, count)?;
    let mut text = Told::new();
    tell_counts(start, count, counts, &mut text);
    let mut line = Told::new();
    add(&mut line, b"drill");
    add_number(&mut line, start);
    add_number(&mut line, count);
    let none = Vec::new(alloc);
    let ended = run_on(threads, alloc, line.as_slice(), none, Calls::none())?;
    let sum = counts
        .permit
        .saturating_add(counts.deny)
        .saturating_add(counts.none);
    if ended.status == 0 && ended.output.bytes() == text.as_slice() && sum == count {
        add_word(out, b"yes");
    } else {
        add_word(out, ended.output.bytes());
    }
    Ok(())
}
