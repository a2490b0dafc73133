//! Runs of `smapd`, which hands messages to a mailer.

use crate::mail::asked::Asked;
use crate::mail::breaking::UNBROKEN;
use crate::mail::running::{run_on, run_over};
use crate::mail::telling::{broken_of, tell_ended, tell_text};
use crate::world::Ended;
use fw_mail::Handed;
use fw_types::NoMemory;
use lines_of_rows::{Told, add_word, cut};
use std::alloc::Global;
use std::thread::Threads;

fn answer_of(letter: u8) -> Handed {
    match letter {
        b'r' => Handed::Refused,
        b'f' => Handed::Failed,
        b'n' => Handed::NoMemory,
        _ => Handed::Accepted,
    }
}

/// The answers of a mailer, a letter each.
pub(crate) fn answers_of(alloc: Global, letters: &[u8]) -> Result<Vec<Handed>, NoMemory> {
    let mut answers = Vec::new(alloc);
    for letter in letters {
        answers.push(answer_of(*letter))?;
    }
    Ok(answers)
}

fn tell_shown(alloc: Global, ended: &Ended, out: &mut Told) -> Result<(), NoMemory> {
    tell_ended(alloc, ended, out)?;
    tell_text(&ended.shown, out);
    Ok(())
}

// What a run came to, and the messages that its mailer took.
fn tell_handed_on(alloc: Global, ended: Option<Ended>, out: &mut Told) -> Result<(), NoMemory> {
    match ended {
        Some(ended) => {
            let told = tell_shown(alloc, &ended, out);
            drop(ended);
            told
        }
        None => {
            add_word(out, b"too many slots");
            Ok(())
        }
    }
}

/// `round PART SLOT CALL WORDS!TABLE!SLOTS!ANSWERS => STATUS PRINTED LOG LETTERS MESSAGES`: a run in which a part fails as in a
/// row `broken`, or none for `-`, and the messages that its mailer took. The mailer's answers are letters: `a` accepts, `r`
/// refuses, `f` fails, `n` has no memory.
pub(crate) fn tell_round<H: Threads + Sync>(
    threads: &H,
    alloc: Global,
    asked: &[u8],
    out: &mut Told,
) -> Result<(), NoMemory> {
    let (broken, rest) = broken_of(asked);
    let asked = Asked::of(rest);
    let answers = answers_of(alloc, asked.client)?;
    let ended = run_over(threads, alloc, asked, broken, answers)?;
    tell_handed_on(alloc, ended, out)
}

// A run of `smapd` by these words.
fn round_by(words: &[u8]) -> Asked<'_> {
    Asked {
        words,
        table: b"",
        slots: b"",
        client: b"",
    }
}

/// `then WORDS!WORDS!TABLE!SLOTS!CLIENT => STATUS PRINTED LOG LETTERS MESSAGES`: what a run of the first words comes to, with a
/// mailer that accepts, over the disks that a run of the other words left.
pub(crate) fn tell_then<H: Threads + Sync>(
    threads: &H,
    alloc: Global,
    asked: &[u8],
    out: &mut Told,
) -> Result<(), NoMemory> {
    let (words, rest) = cut(asked, b'!');
    let first = Asked::of(rest);
    match run_over(threads, alloc, first, UNBROKEN, Vec::new(alloc))? {
        Some(left) => {
            let (disks, shown) = left.into_left();
            drop(shown);
            let none = Vec::new(alloc);
            let ended = run_on(threads, alloc, round_by(words), UNBROKEN, disks, none)?;
            tell_handed_on(alloc, ended, out)
        }
        None => {
            add_word(out, b"too many slots");
            Ok(())
        }
    }
}
