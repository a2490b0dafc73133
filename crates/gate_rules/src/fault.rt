//! Why a line can't be read as a rule.
ghost use Rattle.std.specs.Prelude.{◌≡◌};
ghost use Rattle.gate_rules.specs.Why.{why_text};
ghost use Rattle.gate_rules.specs.declared.fault.RulesFault.TheVariants.{NoMemory};

use std::alloc::{AllocError, AllocFailed};
use thiserror::Error;

/// What is wrong with a line: the cause of its leftmost bad word.
#[derive(Clone, Copy, Debug, PartialEq, Eq, Error)]
pub enum Why {
    /// A host list, or the list of `-dest`, is empty.
    #[error("no hosts")]
    NoHosts,
    /// A word of a list of patterns is no pattern.
    #[error("bad pattern")]
    BadPattern,
    /// A 65th pattern or a 33rd verb stands in a list.
    #[error("too many")]
    TooMany,
    /// The service has no such option.
    #[error("unknown option")]
    UnknownOption,
    /// The line ends before a word that must be there, or no verb stands between braces.
    #[error("missing value")]
    MissingValue,
    /// No closing brace follows.
    #[error("open brace")]
    OpenBrace,
    /// A word in the place of a number or a port is no number or port, or is out of range.
    #[error("bad number")]
    BadNumber,
    /// Any other word that fits nothing at its place.
    #[error("bad word")]
    BadWord,
}

impl Why {
    /// What the log says of it.
    pub fn text(&self) -> &'static [u8]
        ensures { result.now ≡ why_text self.now }
    {
        match self {
            Why::NoHosts => b"no hosts",
            Why::BadPattern => b"bad pattern",
            Why::TooMany => b"too many",
            Why::UnknownOption => b"unknown option",
            Why::MissingValue => b"missing value",
            Why::OpenBrace => b"open brace",
            Why::BadNumber => b"bad number",
            Why::BadWord => b"bad word",
        }
    }
}

/// A line that can't be read, and why.
#[derive(Clone, Copy, Debug, PartialEq, Eq, Error)]
#[error("line {line}: {why}")]
pub struct RuleFault {
    pub line: u32,
    pub why: Why,
}

/// Why the rules of a service weren't read.
#[derive(Clone, Copy, Debug, PartialEq, Eq, Error)]
pub enum RulesFault {
    /// The first of its lines that can't be read.
    #[error("{0}")]
    Rule(RuleFault),
    /// There was no memory.
    #[error("no memory")]
    NoMemory,
}

impl From<AllocError> for RulesFault {
    ghost from_gives = { λ _ e. e ≡ NoMemory };

    fn from(_: AllocError) -> RulesFault {
        RulesFault::NoMemory
    }
}

impl From<fw_types::NoMemory> for RulesFault {
    ghost from_gives = { λ _ e. e ≡ NoMemory };

    fn from(_: fw_types::NoMemory) -> RulesFault {
        RulesFault::NoMemory
    }
}

impl<T: Drop> From<AllocFailed<T>> for RulesFault {
    ghost from_gives = { λ _ e. e ≡ NoMemory };

    fn from(_: AllocFailed<T>) -> RulesFault {
        RulesFault::NoMemory
    }
}
