ghost use Rattle.std.specs.Prelude.{◌≡◌, [], get_or, IfOk, OnOk, OnErr};
ghost use Rattle.fw_outside.specs.Counts.{Rose, counted};
ghost use Rattle.fw_mail.specs.MailerView.{Hands};
ghost use Rattle.fw_memory.specs.MemMailerView.{AnswersHand, answer_told, mailer_view_of, next_call, with_accepted};

use crate::mem_launcher::copy_of;
use fw_mail::{Handed, Mailer, Message};
use fw_types::{NoMemory, Octets};
use std::alloc::Global;
use std::marker::Model;

/// A mailer in memory, which hands nothing on: it answers as it is told, and keeps the messages that it accepts.
#[derive(Drop)]
pub struct MemMailer {
    alloc: Global,
    answers: Vec<Handed>,
    calls: u64,
    accepted: Vec<Message>,
    refusals: u64,
    faults: u64,
}

impl Model for MemMailer {
    ghost use Rattle.fw_memory.specs.MemMailerView.{MemMailerView};

    ghost Value = { MemMailerView };

    ghost view = { λ m. record {
      answers = m.answers.items;
      calls = m.calls;
      accepted = m.accepted.items;
      refusals = m.refusals;
      faults = m.faults;
    } };
}

// The answer of a call by its number.
fn answer_of(answers: &[Handed], call: u64) -> Handed
    ensures { result ≡ get_or answers.now call Handed.Accepted }
{
    match answers.get(call as usize) {
        Some(answer) => *answer,
        None => Handed::Accepted,
    }
}

// An equal message.
fn copy_of_message(alloc: Global, message: &Message) -> Result<Message, NoMemory>
    ensures { IfOk result (λ copy. copy ≡ message.now) }
{
    let from = Octets::copy(alloc, message.from.bytes())?;
    let rcpts = copy_of(alloc, message.rcpts.as_slice())?;
    let body = Octets::copy(alloc, message.body.bytes())?;
    Ok(Message { from, rcpts, body })
}

impl MemMailer {
    /// A mailer whose calls are numbered from 0. Each answers the member at its number, and past the list it accepts.
    /// Memory for what is accepted comes from `alloc`: where there is none, the call answers so.
    pub fn new(alloc: Global, answers: Vec<Handed>) -> MemMailer
        ensures { result ≡ record { answers = answers.items; calls = 0; accepted = []; refusals = 0; faults = 0 } }
    {
        MemMailer {
            alloc,
            answers,
            calls: 0,
            accepted: Vec::new(alloc),
            refusals: 0,
            faults: 0,
        }
    }

    // One more call; what it is told to answer.
    fn told(&mut self) -> Handed
        ensures answer { result ≡ answer_told self.old }
        ensures is { self.new ≡ next_call self.old }
    {
        let call = self.calls;
        self.calls = call.saturating_add(1);
        answer_of(&self.answers, call)
    }

    // Keeps the message behind those before.
    fn keep(&mut self, message: &Message) -> Result<(), NoMemory>
        ensures ok { OnOk result (self.new ≡ with_accepted message.now self.old) }
        ensures err { OnErr result (self.new ≡ self.old) }
    {
        let copy = copy_of_message(self.alloc, message)?;
        self.accepted.push(copy)?;
        Ok(())
    }

    fn refuse(&mut self) -> Handed
        ensures answer { result ≡ Handed.Refused }
        ensures rose { Rose self.old.refusals self.new.refusals }
        ensures is { self.new ≡ record self.old { refusals = counted self.old.refusals } }
    {
        self.refusals = self.refusals.saturating_add(1);
        Handed::Refused
    }

    fn fail(&mut self) -> Handed
        ensures answer { result ≡ Handed.Failed }
        ensures rose { Rose self.old.faults self.new.faults }
        ensures is { self.new ≡ record self.old { faults = counted self.old.faults } }
    {
        self.faults = self.faults.saturating_add(1);
        Handed::Failed
    }

    fn accept(&mut self, message: &Message) -> Handed
        ensures hands { Hands result message.now (mailer_view_of self.old) (mailer_view_of self.new) }
        ensures answer { AnswersHand Handed.Accepted result message.now self.old self.new }
    {
        match self.keep(message) {
            Ok(()) => Handed::Accepted,
            Err(NoMemory) => Handed::NoMemory,
        }
    }
}

impl Mailer for MemMailer {
    ghost mailer_view = { mailer_view_of };

    fn hand(&mut self, message: &Message) -> Handed
        ensures hands { Hands result message.now (mailer_view_of self.old) (mailer_view_of self.new) }
        ensures answer { AnswersHand (answer_told self.old) result message.now (next_call self.old) self.new }
    {
        match self.told() {
            Handed::Accepted => self.accept(message),
            Handed::Refused => self.refuse(),
            Handed::Failed => self.fail(),
            Handed::NoMemory => Handed::NoMemory,
        }
    }

    fn shown(&self) -> &[Message]
        ensures { result.now ≡ self.now.accepted }
    {
        &self.accepted
    }
}
