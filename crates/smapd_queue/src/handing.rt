//! Handing on the message of a slot that was taken.
ghost use Rattle.std.specs.Prelude.{◌≡◌, ◌<◌, length, map};
ghost use Rattle.fw_mail.specs.MailerView.{HandsFirst};
ghost use Rattle.smapd_queue.specs.Slots.{IsItsMessage};
ghost use Rattle.smapd_queue.specs.Steps.{HandsOnSo, IsLent};

use crate::puts::{free_slot, give_up, keep, lack, set_aside};
use crate::word::Word;
use fw_mail::{Handed, Mailer, hand_to_first};
use fw_types::{Message, NoMemory};
use spool_rack::{Full, MailStore, ReadBack};
use std::alloc::Global;

// Hands a message to the first mailer.
#[tactic(auto, using(crate::proofs::MailerLemmas::hands_many))]
fn hand_first(mailers: &mut Vec<Box<dyn Mailer>>, message: &Message) -> Handed
    requires { 0 < length mailers.old.items }
    ensures answers { HandsFirst result message.now (map (λ m. mailer_view m) mailers.old.items)
        (map (λ m. mailer_view m) mailers.new.items) }
    ensures many { length mailers.new.items ≡ length mailers.old.items }
{
    hand_to_first(mailers, message)
}

// Hands the message of a slot to the first mailer, and puts the slot where it belongs.
fn hand_over<M: MailStore>(
    store: &mut M,
    mailers: &mut Vec<Box<dyn Mailer>>,
    full: Full<M::D>,
    message: &Message,
) -> Result<Word, NoMemory>
    requires some { 0 < length mailers.old.items }
    requires lent { IsLent full (M.store_view store.old).out }
    ensures so { IsItsMessage message.now full → HandsOnSo result full (M.store_view store.old) (M.store_view store.new)
        (map (λ m. mailer_view m) mailers.old.items)
        (map (λ m. mailer_view m) mailers.new.items) }
    ensures many { length mailers.new.items ≡ length mailers.old.items }
{
    match hand_first(mailers, message) {
        Handed::Accepted => Ok(free_slot(store, full)),
        Handed::Refused => Ok(set_aside(store, full)),
        Handed::Failed => Ok(keep(store, full)),
        Handed::NoMemory => Err(lack(store, full)),
    }
}

/// Reads the message of a slot that was taken, hands it to the first mailer, and puts the slot where it belongs.
pub(crate) fn hand_on<M: MailStore>(
    alloc: Global,
    store: &mut M,
    mailers: &mut Vec<Box<dyn Mailer>>,
    full: Full<M::D>,
) -> Result<Word, NoMemory>
    requires some { 0 < length mailers.old.items }
    requires lent { IsLent full (M.store_view store.old).out }
    ensures so { HandsOnSo result full (M.store_view store.old) (M.store_view store.new)
        (map (λ m. mailer_view m) mailers.old.items)
        (map (λ m. mailer_view m) mailers.new.items) }
    ensures many { length mailers.new.items ≡ length mailers.old.items }
{
    let mut full = full;
    match full.message(alloc) {
        Ok(message) => hand_over(store, mailers, full, &message),
        Err(ReadBack::DiskFault) => Ok(give_up(store, full)),
        Err(ReadBack::NoMemory) => Err(lack(store, full)),
    }
}
