use std::alloc::{AllocError, AllocFailed};

/// What is wrong with a line of a row file.
#[derive(Clone, Copy)]
pub enum Why {
    /// No keyword is spelt so.
    UnknownKeyword,
    /// A line before the first row.
    NoRow,
    /// A row without a name.
    NoName,
    /// An earlier row has the name.
    SameName,
    /// No earlier row has the name.
    UnknownRow,
    /// A backslash that begins no escape, or an escape that isn't ended.
    BadEscape,
    /// No number, or one that is too high.
    BadNumber,
    /// No device is spelt so, or this can't be told of it.
    UnknownDevice,
    /// No name that a user may have.
    BadName,
    /// Not an even count of hexadecimal digits.
    BadHex,
    /// No IPv4 address and port.
    BadPlace,
    /// Text behind a keyword that stands alone.
    TextBehind,
    /// A row that says neither `status` nor `command`.
    NoStatus,
    /// There was no memory.
    NoMemory,
}

impl Why {
    /// In words, without a line's end.
    pub fn text(self) -> &'static str {
        match self {
            Why::UnknownKeyword => "unknown keyword",
            Why::NoRow => "no row has begun",
            Why::NoName => "no name",
            Why::SameName => "an earlier row has this name",
            Why::UnknownRow => "no earlier row has this name",
            Why::BadEscape => "bad escape",
            Why::BadNumber => "bad number",
            Why::BadPlace => "no address and port",
            Why::UnknownDevice => "no such device, or not of this device",
            Why::BadName => "bad name",
            Why::BadHex => "bad hexadecimal digits",
            Why::TextBehind => "this keyword stands alone",
            Why::NoStatus => "the row has no status",
            Why::NoMemory => "no memory",
        }
    }

    /// The fault of a line with this number.
    pub(crate) fn at(self, line: usize) -> Fault {
        Fault { line, why: self }
    }
}

impl From<AllocError> for Why {
    fn from(_: AllocError) -> Why {
        Why::NoMemory
    }
}

impl<T: Drop> From<AllocFailed<T>> for Why {
    fn from(_: AllocFailed<T>) -> Why {
        Why::NoMemory
    }
}

/// The first line that can't be read.
#[derive(Clone, Copy)]
pub struct Fault {
    /// Its number, from 1.
    pub line: usize,
    /// What is wrong with it.
    pub why: Why,
}
