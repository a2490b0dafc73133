//! What one run of a row meets besides what the row says.

use format_of_rows::{Part, Row};
use fw_types::{Name, Octets};
use std::alloc::Global;

/// What fails in a run besides what its row says: one part, or none, at one call; for a sink's room the count of bytes.
#[derive(Clone, Copy)]
pub(crate) struct Broken {
    pub(crate) part: Option<Part>,
    pub(crate) at: u64,
}

/// Nothing else fails.
pub(crate) const UNBROKEN: Broken = Broken { part: None, at: 0 };

/// More bytes than come at once.
pub(crate) const WHOLE: usize = 1_048_576;

/// A run of a row: the records that it begins with, how its bytes are cut, and what fails.
#[derive(Clone, Copy)]
pub(crate) struct Plan<'a> {
    pub(crate) alloc: Global,
    pub(crate) row: &'a Row,
    pub(crate) records: &'a [(Name, Octets)],
    /// The most bytes that come at once.
    pub(crate) piece: usize,
    pub(crate) broken: Broken,
}

impl<'a> Plan<'a> {
    /// The same run, in which this fails.
    pub(crate) fn with(&self, broken: Broken) -> Plan<'a> {
        Plan {
            alloc: self.alloc,
            row: self.row,
            records: self.records,
            piece: self.piece,
            broken,
        }
    }

    /// Whether the part fails besides what the row says.
    pub(crate) fn breaks(&self, part: Part) -> bool {
        self.broken.part == Some(part)
    }
}
