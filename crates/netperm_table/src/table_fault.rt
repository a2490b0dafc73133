ghost use Rattle.std.specs.Prelude.{◌≡◌};
ghost use Rattle.netperm_table.specs.Fault.{line_of, table_why_text};
ghost use Rattle.netperm_table.specs.declared.table_fault.TableFault.TheVariants.{NoMemory};

use std::alloc::{AllocError, AllocFailed};
use thiserror::Error;

/// Why a table wasn't read. Lines are counted from 1, skipped ones included.
#[derive(Clone, Copy, Debug, PartialEq, Eq, Error)]
pub enum TableFault {
    /// This line has over 2,048 bytes, without its LF and the CR before that.
    #[error("line {line} is too long")]
    LongLine { line: u32 },
    /// This line has a byte 0.
    #[error("line {line} has a byte 0")]
    NulByte { line: u32 },
    /// This line has no colon.
    #[error("line {line} has no colon")]
    NoColon { line: u32 },
    /// This line has nothing but commas and blanks before its colon.
    #[error("line {line} has no keyword")]
    NoKeyword { line: u32 },
    /// In this line a word after the colon begins with a quote, and no second quote follows.
    #[error("line {line} has an open quote")]
    OpenQuote { line: u32 },
    /// This line has no word after its colon.
    #[error("line {line} has no attribute")]
    NoAttribute { line: u32 },
    /// There is a line after the 65,535th.
    #[error("there are too many lines")]
    ManyLines,
    /// The source failed, or nothing came from it in time.
    #[error("the source failed")]
    ReadFault,
    /// There was no memory.
    #[error("no memory")]
    NoMemory,
}

impl From<AllocError> for TableFault {
    ghost from_gives = { λ _ e. e ≡ NoMemory };

    fn from(_: AllocError) -> TableFault {
        TableFault::NoMemory
    }
}

impl From<fw_types::NoMemory> for TableFault {
    ghost from_gives = { λ _ e. e ≡ NoMemory };

    fn from(_: fw_types::NoMemory) -> TableFault {
        TableFault::NoMemory
    }
}

impl<T: Drop> From<AllocFailed<T>> for TableFault {
    ghost from_gives = { λ _ e. e ≡ NoMemory };

    fn from(_: AllocFailed<T>) -> TableFault {
        TableFault::NoMemory
    }
}

impl TableFault {
    /// The number of the line at fault, or nothing where it is the source or memory.
    pub fn line(&self) -> Option<u32>
        ensures { result ≡ line_of self.now }
    {
        match self {
            TableFault::LongLine { line }
            | TableFault::NulByte { line }
            | TableFault::NoColon { line }
            | TableFault::NoKeyword { line }
            | TableFault::OpenQuote { line }
            | TableFault::NoAttribute { line } => Some(*line),
            TableFault::ManyLines => Some(65_536),
            TableFault::ReadFault | TableFault::NoMemory => None,
        }
    }

    /// What the log says of the line at fault; empty where it is the source or memory.
    pub fn why(&self) -> &'static [u8]
        ensures { result.now ≡ table_why_text self.now }
    {
        match self {
            TableFault::LongLine { .. } => b"long line",
            TableFault::NulByte { .. } => b"nul byte",
            TableFault::NoColon { .. } => b"no colon",
            TableFault::NoKeyword { .. } => b"no keyword",
            TableFault::OpenQuote { .. } => b"open quote",
            TableFault::NoAttribute { .. } => b"no attribute",
            TableFault::ManyLines => b"many lines",
            TableFault::ReadFault | TableFault::NoMemory => b"",
        }
    }
}
