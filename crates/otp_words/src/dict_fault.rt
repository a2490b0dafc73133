ghost use Rattle.std.specs.Prelude.{◌≡◌};
ghost use Rattle.otp_words.specs.declared.dict_fault.DictFault.TheVariants.{NoMemory};

use std::alloc::{AllocError, AllocFailed};
use thiserror::Error;

/// Why a dictionary wasn't read. Lines are counted from 1.
#[derive(Clone, Copy, Debug, PartialEq, Eq, Error)]
pub enum DictFault {
    /// This line isn't a word of 1 to 4 letters.
    #[error("line {line} is no word")]
    BadWord { line: u32 },
    /// The word in this line stood before, in either case.
    #[error("the word in line {line} stood before")]
    Twice { line: u32 },
    /// There is a line after the 2,048th.
    #[error("there are too many words")]
    Long,
    /// There are so few words.
    #[error("there are only {words} words")]
    Short { words: u32 },
    /// The source failed, or nothing came from it in time.
    #[error("the source failed")]
    ReadFault,
    /// There was no memory.
    #[error("no memory")]
    NoMemory,
}

impl From<AllocError> for DictFault {
    ghost from_gives = { λ _ e. e ≡ NoMemory };

    fn from(_: AllocError) -> DictFault {
        DictFault::NoMemory
    }
}

impl<T: Drop> From<AllocFailed<T>> for DictFault {
    ghost from_gives = { λ _ e. e ≡ NoMemory };

    fn from(_: AllocFailed<T>) -> DictFault {
        DictFault::NoMemory
    }
}
