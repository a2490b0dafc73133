//! A round.
ghost use Rattle.std.specs.Prelude.{◌≡◌, ◌<◌, length, map};
ghost use Rattle.fw_outside.specs.SinkView.{Gives};
ghost use Rattle.spool_rack.specs.Store.{HasTakenFull, StoreView};
ghost use Rattle.smapd_queue.specs.Meeting.{meeting_with};
ghost use Rattle.smapd_queue.specs.Round.{HandsOn, HandsOnTelling};
ghost use Rattle.smapd_queue.specs.Steps.{IsLent, StepsSo};
ghost use Rattle.smapd_queue.specs.Turns.{handed_line};
ghost use Rattle.smapd_queue.specs.Words.{HasRoom, text_of};

use crate::handing::hand_on;
use crate::log_line::handed_line;
use crate::puts::take_full;
use crate::tally::Tally;
use crate::word::Word;
use crate::{Round, RoundFault, Rounded};
use fw_mail::Mailer;
use fw_outside::{Failed, Sink};
use spool_rack::{Full, MailStore};
use std::alloc::Global;

/// How a step of a round ends.
#[derive(Clone, Copy)]
pub(crate) enum Step {
    /// A turn was taken, and logged.
    Went,
    /// No slot was full.
    NoneFull,
    /// The log failed.
    Unlogged,
    /// There was no memory.
    Lacked,
}

// Logs a turn.
fn tell<G: Sink>(logs: &mut G, number: u32, word: Word) -> Result<(), Failed>
    ensures { Gives result (handed_line number (text_of word)) (G.sink_view logs.old) (G.sink_view logs.new) }
{
    logs.give(handed_line(number, word).as_slice())
}

// Hands on the message of a slot that was taken, and logs that.
fn take_turn_with<M: MailStore, G: Sink>(
    alloc: Global,
    store: &mut M,
    mailers: &mut Vec<Box<dyn Mailer>>,
    logs: &mut G,
    tally: &mut Tally,
    full: Full<M::D>,
) -> Step
    requires some { 0 < length mailers.old.items }
    requires room { HasRoom tally.old.round }
    requires lent { IsLent full (M.store_view store.old).out }
    ensures so { (before : StoreView) → HasTakenFull full before (M.store_view store.old) →
        StepsSo result tally.old tally.new
        (meeting_with before (map (λ m. mailer_view m) mailers.old.items) (G.sink_view logs.old))
        (meeting_with (M.store_view store.new) (map (λ m. mailer_view m) mailers.new.items) (G.sink_view logs.new)) }
    ensures many { length mailers.new.items ≡ length mailers.old.items }
{
    let number = full.number();
    match hand_on(alloc, store, mailers, full) {
        Ok(word) => {
            tally.note(number, word);
            match tell(logs, number, word) {
                Ok(()) => {
                    tally.count(word);
                    Step::Went
                }
                Err(Failed) => Step::Unlogged,
            }
        }
        Err(_) => Step::Lacked,
    }
}

// Takes a full slot, hands its message on, and logs that.
fn take_turn<M: MailStore, G: Sink>(
    alloc: Global,
    store: &mut M,
    mailers: &mut Vec<Box<dyn Mailer>>,
    logs: &mut G,
    tally: &mut Tally,
) -> Step
    requires some { 0 < length mailers.old.items }
    requires room { HasRoom tally.old.round }
    ensures so { StepsSo result tally.old tally.new
        (meeting_with (M.store_view store.old) (map (λ m. mailer_view m) mailers.old.items) (G.sink_view logs.old))
        (meeting_with (M.store_view store.new) (map (λ m. mailer_view m) mailers.new.items) (G.sink_view logs.new)) }
    ensures many { length mailers.new.items ≡ length mailers.old.items }
{
    match take_full(store) {
        Some(full) => take_turn_with(alloc, store, mailers, logs, tally, full),
        None => Step::NoneFull,
    }
}

/// A round as `smapd_round`, which also tells the device that failed in the first turn in which one did.
pub fn smapd_round_telling<M: MailStore, G: Sink>(
    alloc: Global,
    store: &mut M,
    mailers: &mut Vec<Box<dyn Mailer>>,
    turns: u32,
    logs: &mut G,
) -> Rounded
    requires { 0 < length mailers.old.items }
    ensures { HandsOnTelling turns result.answer result.trouble
        (meeting_with (M.store_view store.old) (map (λ m. mailer_view m) mailers.old.items) (G.sink_view logs.old))
        (meeting_with (M.store_view store.new) (map (λ m. mailer_view m) mailers.new.items) (G.sink_view logs.new)) }
{
    let mut tally = Tally::new();
    let mut left = turns;
    while left > 0 {
        match take_turn(alloc, store, mailers, logs, &mut tally) {
            Step::Went => left -= 1,
            Step::NoneFull => return tally.well(),
            Step::Unlogged => return tally.unlogged(),
            Step::Lacked => return tally.lacked(),
        }
    }
    tally.well()
}

/// A round: takes a full slot as many times as there may be turns, or until no slot is full, reads its message and hands it to
/// the first mailer. Of a message that is accepted the slot is freed; one that is refused is set aside; if the hand fails the
/// slot is full again, behind the others; and a slot whose disk fails is broken. Each turn has its line in the log.
///
/// The answer counts the turns whose line was given whole. After want of memory the slot in hand is full again, and has no line.
pub fn smapd_round<M: MailStore, G: Sink>(
    alloc: Global,
    store: &mut M,
    mailers: &mut Vec<Box<dyn Mailer>>,
    turns: u32,
    logs: &mut G,
) -> Result<Round, RoundFault>
    requires { 0 < length mailers.old.items }
    ensures { HandsOn turns result
        (meeting_with (M.store_view store.old) (map (λ m. mailer_view m) mailers.old.items) (G.sink_view logs.old))
        (meeting_with (M.store_view store.new) (map (λ m. mailer_view m) mailers.new.items) (G.sink_view logs.new)) }
{
    smapd_round_telling(alloc, store, mailers, turns, logs).answer
}
