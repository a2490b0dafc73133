//! Four threads make entries under a `turn_lock`, and each entry stands at the place that its thread was told.

ghost use Rattle.std.specs.Prelude.{◌≡◌, ◌+◌, ◌<◌, ◌++◌, [], ◌∷◌, List, length, MatchOption};
ghost use Rattle.turn_lock.specs.Known.{IsPassOf};

mod tally;

use fw_types::NoMemory;
use std::alloc::Global;
use std::io;
use std::sync::Wait;
use std::thread::{Threads, join};
use tally::{Add, Tally};
use turn_lock::{Pass, Turns};

const ROUNDS: u64 = 2000;

// Makes this thread's entries, and gives back the places that it was told.
fn add_all<R: Wait>(
    rt: &R,
    alloc: Global,
    turns: &Turns<Tally>,
    mut pass: Pass<Tally>,
    first: u64,
) -> (Pass<Tally>, Vec<u64>)
    requires { IsPassOf turns.now pass }
    ensures { IsPassOf turns.now result.0 }
{
    let mut places = Vec::new(alloc);
    for round in 0..ROUNDS {
        let added = turns.with_turn(
            rt,
            &mut pass,
            Add {
                what: first.wrapping_add(round),
            },
        );
        if let Some(place) = added {
            let _ = places.push(place);
        }
    }
    (pass, places)
}

// Whether each entry stands at the place that was told for it.
fn stand(all: &[u64], places: &[u64], first: u64) -> bool {
    let mut next = first;
    for place in places {
        match usize::try_from(*place).ok().and_then(|at| all.get(at)) {
            Some(what) if *what == next => next = next.wrapping_add(1),
            _ => return false,
        }
    }
    places.len() as u64 == ROUNDS
}

#[derive(Drop)]
struct Told {
    all: Vec<u64>,
    first: Vec<u64>,
    second: Vec<u64>,
    third: Vec<u64>,
    fourth: Vec<u64>,
}

fn share<R: Threads + Wait + Sync>(rt: &R, alloc: Global) -> Result<Told, NoMemory> {
    let (turns, mut one) = match Turns::new(alloc, Tally::new(alloc, 1 << 20)) {
        Ok(made) => made,
        Err((_, NoMemory)) => return Err(NoMemory),
    };
    let two = turns.split(&mut one)?;
    let three = turns.split(&mut one)?;
    let four = turns.split(&mut one)?;
    let lock = &turns;
    let (((mut one, first), (two, second)), ((three, third), (four, fourth))) = join(
        rt,
        move || -> ((Pass<Tally>, Vec<u64>), (Pass<Tally>, Vec<u64>))
            requires { IsPassOf lock.now one × IsPassOf lock.now two }
            ensures { IsPassOf lock.entry.now result.0.0 × IsPassOf lock.entry.now result.1.0 }
        { two_add(rt, alloc, lock, (one, 0), (two, 10000)) },
        move || -> ((Pass<Tally>, Vec<u64>), (Pass<Tally>, Vec<u64>))
            requires { IsPassOf lock.now three × IsPassOf lock.now four }
            ensures { IsPassOf lock.entry.now result.0.0 × IsPassOf lock.entry.now result.1.0 }
        { two_add(rt, alloc, lock, (three, 20000), (four, 30000)) },
    );
    turns.meet(&mut one, two);
    turns.meet(&mut one, three);
    turns.meet(&mut one, four);
    let all = turns.close(rt, one).into_entries();
    Ok(Told {
        all,
        first,
        second,
        third,
        fourth,
    })
}

fn two_add<R: Threads + Wait + Sync>(
    rt: &R,
    alloc: Global,
    turns: &Turns<Tally>,
    one: (Pass<Tally>, u64),
    two: (Pass<Tally>, u64),
) -> ((Pass<Tally>, Vec<u64>), (Pass<Tally>, Vec<u64>))
    requires { IsPassOf turns.now one.0 × IsPassOf turns.now two.0 }
    ensures { IsPassOf turns.now result.0.0 × IsPassOf turns.now result.1.0 }
{
    let (one, from_one) = one;
    let (two, from_two) = two;
    join(
        rt,
        move || -> (Pass<Tally>, Vec<u64>)
            requires { IsPassOf turns.now one }
            ensures { IsPassOf turns.entry.now result.0 }
        { add_all(rt, alloc, turns, one, from_one) },
        move || -> (Pass<Tally>, Vec<u64>)
            requires { IsPassOf turns.now two }
            ensures { IsPassOf turns.entry.now result.0 }
        { add_all(rt, alloc, turns, two, from_two) },
    )
}

/// Prints what comes of the entries.
///
/// # Errors
///
/// What standard output answers.
pub fn print_all<H: Threads + Wait + Sync>(threads: &H, rt: HostRuntime) -> io::Result<()> {
    let Ok(told) = share(threads, rt.alloc()) else {
        return println!(rt; "no memory");
    };
    let all = told.all.as_slice();
    println!(rt; "{} entries", all.len())?;
    println!(rt; "first {}", stand(all, told.first.as_slice(), 0))?;
    println!(rt; "second {}", stand(all, told.second.as_slice(), 10000))?;
    println!(rt; "third {}", stand(all, told.third.as_slice(), 20000))?;
    println!(rt; "fourth {}", stand(all, told.fourth.as_slice(), 30000))
}
