//! What a round came to so far.
ghost use Rattle.std.specs.Prelude.{◌≡◌, None, Ok, Err};
ghost use Rattle.smapd_queue.specs.declared.round.RoundFault.TheVariants as faults;
ghost use Rattle.smapd_queue.specs.Turns.{or_else};
ghost use Rattle.smapd_queue.specs.Words.{HasRoom, trouble_in, with_one};

use crate::word::Word;
use crate::{Round, RoundFault, Rounded, Trouble};

/// The numbers, and the device that failed first.
#[derive(Clone, Copy)]
pub(crate) struct Tally {
    pub(crate) round: Round,
    pub(crate) trouble: Option<Trouble>,
}

// One more of a word.
fn with_one(round: Round, word: Word) -> Round
    requires { HasRoom round }
    ensures { result ≡ with_one word round }
{
    match word {
        Word::Accepted => Round {
            accepted: round.accepted + 1,
            ..round
        },
        Word::Refused => Round {
            refused: round.refused + 1,
            ..round
        },
        Word::Failed => Round {
            failed: round.failed + 1,
            ..round
        },
        Word::Broken => Round {
            broken: round.broken + 1,
            ..round
        },
    }
}

// The device that failed in a turn.
fn trouble_in(number: u32, word: Word) -> Option<Trouble>
    ensures { result ≡ trouble_in number word }
{
    match word {
        Word::Accepted => None,
        Word::Refused => None,
        Word::Failed => Some(Trouble::Mailer),
        Word::Broken => Some(Trouble::Disk(number)),
    }
}

// The first of two.
fn or_else(first: Option<Trouble>, other: Option<Trouble>) -> Option<Trouble>
    ensures { result ≡ or_else first other }
{
    match first {
        Some(trouble) => Some(trouble),
        None => other,
    }
}

impl Tally {
    /// Nothing yet.
    pub(crate) fn new() -> Tally
        ensures { result ≡ record {
          round = record { accepted = 0; refused = 0; failed = 0; broken = 0 };
          trouble = None;
        } }
    {
        Tally {
            round: Round {
                accepted: 0,
                refused: 0,
                failed: 0,
                broken: 0,
            },
            trouble: None,
        }
    }

    /// The device that failed in a turn that took the slot of this number, if one did.
    pub(crate) fn note(&mut self, number: u32, word: Word)
        ensures { self.new ≡ record {
          round = self.old.round;
          trouble = or_else self.old.trouble (trouble_in number word);
        } }
    {
        self.trouble = or_else(self.trouble, trouble_in(number, word));
    }

    /// One more of a word.
    pub(crate) fn count(&mut self, word: Word)
        requires { HasRoom self.old.round }
        ensures { self.new ≡ record {
          round = with_one word self.old.round;
          trouble = self.old.trouble;
        } }
    {
        self.round = with_one(self.round, word);
    }

    /// What a round answers that ended well.
    pub(crate) fn well(self) -> Rounded
        ensures { result ≡ record { answer = Ok self.round; trouble = self.trouble } }
    {
        Rounded {
            answer: Ok(self.round),
            trouble: self.trouble,
        }
    }

    /// What a round answers at which the log failed.
    pub(crate) fn unlogged(self) -> Rounded
        ensures { result ≡ record { answer = Err (faults.LogFault self.round); trouble = self.trouble } }
    {
        Rounded {
            answer: Err(RoundFault::LogFault(self.round)),
            trouble: self.trouble,
        }
    }

    /// What a round answers for want of memory.
    pub(crate) fn lacked(self) -> Rounded
        ensures { result ≡ record { answer = Err (faults.NoMemory self.round); trouble = self.trouble } }
    {
        Rounded {
            answer: Err(RoundFault::NoMemory(self.round)),
            trouble: self.trouble,
        }
    }
}
