//! Runs of `smapd` in which the mailer doesn't take one of the messages that it is handed.

use crate::mail::asked::Asked;
use crate::mail::breaking::UNBROKEN;
use crate::mail::running::run_over;
use crate::mail::sweep::count_slots;
use crate::mail::telling::tell_ended;
use crate::world::Ended;
use fw_mail::Handed;
use fw_types::NoMemory;
use lines_of_rows::{Told, add, add_number, add_word};
use std::alloc::Global;
use std::thread::Threads;

/// So many hands are looked at, at most.
const HANDS: u64 = 64;

// A hand at which the mailer doesn't take the message, and what it answers then; it accepts at all others.
#[derive(Clone, Copy)]
struct Untaken {
    hand: u64,
    answer: Handed,
}

impl Untaken {
    fn answers(&self, alloc: Global) -> Result<Vec<Handed>, NoMemory> {
        let mut answers = Vec::new(alloc);
        for _ in 0..self.hand {
            answers.push(Handed::Accepted)?;
        }
        answers.push(self.answer)?;
        Ok(answers)
    }

    fn is_at(&self, hand: u64, answer: Handed) -> bool {
        self.hand == hand && self.answer == answer
    }

    // Whether the round stopped before this hand was done.
    fn stops(&self, hand: u64) -> bool {
        self.answer == Handed::NoMemory && self.hand <= hand
    }

    fn word(&self, hand: u64) -> &'static [u8] {
        if self.is_at(hand, Handed::Refused) {
            return b"refused";
        }
        if self.is_at(hand, Handed::Failed) {
            return b"failed";
        }
        b"accepted"
    }

    // What a slot with a message is behind the run.
    fn letter(&self, hand: u64, again: bool) -> &'static [u8] {
        if self.is_at(hand, Handed::Refused) {
            return b"a";
        }
        if self.stops(hand) || (self.is_at(hand, Handed::Failed) && !again) {
            return b"w";
        }
        b"f"
    }
}

// How many slots have a message.
fn count_full(slots: &[u8]) -> u64 {
    let mut count = 0u64;
    for word in slots.split(|byte| *byte == b',') {
        if word == b"w".as_slice() {
            count = count.saturating_add(1);
        }
    }
    count
}

// Whether the message of that hand is handed over again: where it failed, and more turns than messages are left.
fn is_again(slots: &[u8], untaken: Untaken) -> bool {
    untaken.answer == Handed::Failed && count_full(slots) < count_slots(slots)
}

fn add_turn(out: &mut Told, slot: u64, word: &[u8]) {
    add(out, b"handed slot");
    add_number(out, slot);
    add_word(out, word);
    add(out, b"^");
}

// The lines of the turns, in order of the slots, and the slot of the hand that isn't taken.
fn add_turns(out: &mut Told, slots: &[u8], untaken: Untaken) -> u64 {
    let mut slot = 0u64;
    let mut hand = 0u64;
    let mut which = 0u64;
    for word in slots.split(|byte| *byte == b',') {
        if word == b"w".as_slice() {
            if hand == untaken.hand {
                which = slot;
            }
            if !untaken.stops(hand) {
                add_turn(out, slot, untaken.word(hand));
            }
            hand = hand.saturating_add(1);
        }
        slot = slot.saturating_add(1);
    }
    which
}

fn add_log(out: &mut Told, slots: &[u8], untaken: Untaken) {
    add_word(out, b"");
    let which = add_turns(out, slots, untaken);
    if is_again(slots, untaken) {
        add_turn(out, which, b"accepted");
    }
    match untaken.answer {
        Handed::Failed => add(out, b"fault outside mailer^"),
        Handed::NoMemory => add(out, b"fault memory^"),
        Handed::Accepted | Handed::Refused => (),
    }
}

fn add_letters(out: &mut Told, slots: &[u8], untaken: Untaken) {
    let again = is_again(slots, untaken);
    let mut hand = 0u64;
    add_word(out, b"");
    for word in slots.split(|byte| *byte == b',') {
        if word == b"w".as_slice() {
            add(out, untaken.letter(hand, again));
            hand = hand.saturating_add(1);
        } else {
            add(out, word);
        }
    }
}

// How many messages the mailer takes.
fn count_taken(slots: &[u8], untaken: Untaken) -> u64 {
    if untaken.answer == Handed::NoMemory {
        return untaken.hand;
    }
    let others = count_full(slots).saturating_sub(1);
    others.saturating_add(u64::from(is_again(slots, untaken)))
}

fn add_printed(out: &mut Told, slots: &[u8], untaken: Untaken) {
    add_word(out, b"accepted");
    add_number(out, count_taken(slots, untaken));
    add_word(out, b"refused");
    add_number(out, u64::from(untaken.answer == Handed::Refused));
    add_word(out, b"failed");
    add_number(out, u64::from(untaken.answer == Handed::Failed));
    add_word(out, b"broken 0^");
}

fn status_of(untaken: Untaken) -> u64 {
    match untaken.answer {
        Handed::Accepted | Handed::Refused => 0,
        Handed::Failed => 4,
        Handed::NoMemory => 5,
    }
}

// What must be told of such a run.
fn wanted(slots: &[u8], untaken: Untaken) -> Told {
    let mut out = Told::new();
    add_number(&mut out, status_of(untaken));
    if untaken.answer != Handed::NoMemory {
        add_printed(&mut out, slots, untaken);
    }
    add_log(&mut out, slots, untaken);
    add_letters(&mut out, slots, untaken);
    out
}

fn count_messages(shown: &[u8]) -> u64 {
    let mut count = 0u64;
    for byte in shown {
        if *byte == b';' {
            count = count.saturating_add(1);
        }
    }
    count
}

fn is_as_wanted(
    alloc: Global,
    slots: &[u8],
    untaken: Untaken,
    ended: &Ended,
) -> Result<bool, NoMemory> {
    let mut told = Told::new();
    tell_ended(alloc, ended, &mut told)?;
    let same = told.as_slice() == wanted(slots, untaken).as_slice();
    Ok(same && count_messages(&ended.shown) == count_taken(slots, untaken))
}

fn is_right<H: Threads + Sync>(
    threads: &H,
    alloc: Global,
    asked: Asked,
    untaken: Untaken,
) -> Result<bool, NoMemory> {
    let answers = untaken.answers(alloc)?;
    match run_over(threads, alloc, asked, UNBROKEN, answers)? {
        Some(ended) => {
            let right = is_as_wanted(alloc, asked.slots, untaken, &ended);
            drop(ended);
            right
        }
        None => Ok(false),
    }
}

// How many runs aren't right in which the mailer answers this at one of the hands.
fn wrong_with<H: Threads + Sync>(
    threads: &H,
    alloc: Global,
    asked: Asked,
    answer: Handed,
) -> Result<u64, NoMemory> {
    let mut count = 0u64;
    for hand in 0..count_full(asked.slots).min(HANDS) {
        if !is_right(threads, alloc, asked, Untaken { hand, answer })? {
            count = count.saturating_add(1);
        }
    }
    Ok(count)
}

/// `hands WORDS!TABLE!SLOTS => N wrong`: how many runs of `smapd`, in which the mailer refuses the message of one hand, fails at
/// it or has no memory for it, and accepts at all others, don't come to the status, the text, the log's lines, the slots and the
/// number of messages taken that this calls for. The slots are the letters `f`, `w` and `a`.
pub(crate) fn tell_hands<H: Threads + Sync>(
    threads: &H,
    alloc: Global,
    asked: &[u8],
    out: &mut Told,
) -> Result<(), NoMemory> {
    let asked = Asked::of(asked);
    let mut count = 0u64;
    for answer in [Handed::Refused, Handed::Failed, Handed::NoMemory] {
        count = count.saturating_add(wrong_with(threads, alloc, asked, answer)?);
    }
    add_number(out, count);
    add(out, b" wrong");
    Ok(())
}
