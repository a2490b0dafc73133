//! What may be wrong with a pattern, and with a list of them.
ghost use Rattle.std.specs.Prelude.{◌≡◌};
ghost use Rattle.host_pattern.specs.declared.fault.ListFault.TheVariants.{NoMemory};

use thiserror::Error;

/// Why a text is no pattern: the first of these that applies. The body is the text without a leading `!`.
#[derive(Clone, Copy, Debug, PartialEq, Eq, Error)]
pub enum PatternFault {
    /// The body is empty.
    #[error("empty pattern")]
    Empty,
    /// The body is longer than 255 bytes.
    #[error("pattern longer than 255 bytes")]
    TooLong,
    /// The body's byte at this place, counted from 0, is the first that may not stand there.
    #[error("byte {at} of the pattern may not stand there")]
    BadByte { at: usize },
    /// The body has a colon, and isn't an address and a mask: two dotted quads joined by it.
    #[error("the colon of the pattern joins no address and mask")]
    BadMask,
}

/// Why words are no list of patterns: the first of these that applies, or want of memory.
#[derive(Clone, Copy, Debug, PartialEq, Eq, Error)]
pub enum ListFault {
    /// There are no words.
    #[error("no patterns")]
    None,
    /// There are more than 64 words.
    #[error("more than 64 patterns")]
    TooMany,
    /// The word at this place, counted from 0, is the first that is no pattern.
    #[error("pattern {at}: {why}")]
    Bad { at: usize, why: PatternFault },
    /// There was no memory for the list.
    #[error("out of memory")]
    NoMemory,
}

impl From<fw_types::NoMemory> for ListFault {
    ghost from_gives = { λ _ e. e ≡ NoMemory };

    fn from(_: fw_types::NoMemory) -> ListFault {
        ListFault::NoMemory
    }
}
