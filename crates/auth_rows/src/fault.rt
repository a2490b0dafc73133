//! Why a scene isn't as it says.

use fw_types::NoMemory;
use lines_of_rows::{Told, add, unescape};
use std::alloc::{AllocError, AllocFailed, Global};

/// A line of a scene, and its number in the file, from 1.
#[derive(Clone, Copy)]
pub(crate) struct Line<'a> {
    pub(crate) number: u64,
    pub(crate) text: &'a str,
}

/// Why a scene isn't as it says.
#[derive(Drop)]
pub(crate) enum Fault {
    NoMemory,
    /// The line of this number says otherwise than what is told.
    Differs { number: u64, told: Told },
}

impl From<NoMemory> for Fault {
    fn from(_: NoMemory) -> Fault {
        Fault::NoMemory
    }
}

impl From<AllocError> for Fault {
    fn from(_: AllocError) -> Fault {
        Fault::NoMemory
    }
}

impl<T: Drop> From<AllocFailed<T>> for Fault {
    fn from(_: AllocFailed<T>) -> Fault {
        Fault::NoMemory
    }
}

impl<'a> Line<'a> {
    /// Whether it says nothing.
    pub(crate) fn is_blank(&self) -> bool {
        self.text.trim().is_empty() || self.text.starts_with("#")
    }

    /// Whether a request is asked: whether it begins with a digit.
    pub(crate) fn is_row(&self) -> bool {
        match self.text.as_bytes().first() {
            Some(byte) => byte.is_ascii_digit(),
            None => false,
        }
    }

    /// Whether it asks for a request that changes a record.
    pub(crate) fn is_change(&self) -> bool {
        self.is_row() && self.text.contains(" =>* ")
    }

    /// Whether it asks for a request that gets no answer.
    pub(crate) fn is_unanswered(&self) -> bool {
        self.is_row() && self.text.ends_with(" => the link failed")
    }

    /// Its first word.
    pub(crate) fn word(&self) -> &'a str {
        match self.text.split_once(" ") {
            Some((word, _)) => word,
            None => self.text,
        }
    }

    /// What follows the first word, as it stands.
    pub(crate) fn text_behind(&self) -> &'a str {
        match self.text.split_once(" ") {
            Some((_, rest)) => rest,
            None => "",
        }
    }

    /// What follows the first word.
    pub(crate) fn rest(&self, alloc: Global) -> Result<Vec<u8>, NoMemory> {
        match self.text.split_once(" ") {
            Some((_, rest)) => unescape(alloc, rest),
            None => Ok(Vec::new(alloc)),
        }
    }

    /// That this is told in place of what the line says.
    pub(crate) fn differs(&self, told: &[u8]) -> Fault {
        let mut copy = Told::new();
        add(&mut copy, told);
        Fault::Differs {
            number: self.number,
            told: copy,
        }
    }
}

/// Whether it is so, or that the line differs.
pub(crate) fn check(line: &Line<'_>, is_so: bool, told: &[u8]) -> Result<(), Fault> {
    if is_so {
        return Ok(());
    }
    Err(line.differs(told))
}
