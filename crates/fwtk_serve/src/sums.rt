//! What rounds of handing on mail come to.
ghost use Rattle.std.specs.Prelude.{◌≡◌, ◌+◌, ◌-◌, ◌^◌, if◌then◌else◌, min};
ghost use Rattle.fwtk_serve.specs.Clerks.{no_sums, with_answer, with_round};
ghost use Rattle.fwtk_serve.specs.Rounds.{is_starved, numbers_in};

use smapd_queue::{Round, RoundFault};

/// The numbers of the rounds so far, each up to its last value, and in how many of them memory was wanting.
#[derive(Clone, Copy)]
pub(crate) struct Sums {
    pub(crate) round: Round,
    pub(crate) starved: u32,
}

// These and the numbers of one more round.
fn with_round(sum: Round, round: Round) -> Round
    ensures { result ≡ with_round sum round }
{
    Round {
        accepted: sum.accepted.saturating_add(round.accepted),
        refused: sum.refused.saturating_add(round.refused),
        failed: sum.failed.saturating_add(round.failed),
        broken: sum.broken.saturating_add(round.broken),
    }
}

// The numbers that an answer carries.
fn numbers_in(answer: &Result<Round, RoundFault>) -> Round
    ensures { result ≡ numbers_in answer.now }
{
    match answer {
        Ok(round) => *round,
        Err(RoundFault::NoMemory(round)) => *round,
        Err(RoundFault::LogFault(round)) => *round,
    }
}

fn is_starved(answer: &Result<Round, RoundFault>) -> bool
    ensures { result ≡ is_starved answer.now }
{
    matches!(answer, Err(RoundFault::NoMemory(_)))
}

// The number after one more, if there is one more.
fn counted(starved: bool, count: u32) -> u32
    ensures { result ≡ min (count + (if starved then 1 else 0)) (2 ^ 32 - 1) }
{
    if starved {
        count.saturating_add(1)
    } else {
        count
    }
}

impl Sums {
    /// Of no rounds.
    pub(crate) fn none() -> Sums
        ensures { result ≡ no_sums }
    {
        Sums {
            round: Round {
                accepted: 0,
                refused: 0,
                failed: 0,
                broken: 0,
            },
            starved: 0,
        }
    }

    /// With one round more, which answered this.
    pub(crate) fn with(self, answer: &Result<Round, RoundFault>) -> Sums
        ensures { result ≡ with_answer answer.now self }
    {
        Sums {
            round: with_round(self.round, numbers_in(answer)),
            starved: counted(is_starved(answer), self.starved),
        }
    }
}
