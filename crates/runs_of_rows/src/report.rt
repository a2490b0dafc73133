//! What is printed of the rows.

use crate::sweeps::Swept;
use crate::writing::{Text, add, add_number};
use fw_types::NoMemory;
use std::alloc::Global;

/// How many rows there were.
#[derive(Clone, Copy)]
pub struct Counts {
    pub rows: u64,
    /// How many of them were otherwise than they must be.
    pub differ: u64,
}

impl Counts {
    /// None yet.
    pub fn new() -> Counts {
        Counts { rows: 0, differ: 0 }
    }

    fn count(&mut self, good: bool) {
        self.rows = self.rows.saturating_add(1);
        if !good {
            self.differ = self.differ.saturating_add(1);
        }
    }
}

/// What is told of the rows of a file.
#[derive(Drop)]
pub struct Report {
    text: Vec<u8>,
    /// Whether each row must differ.
    differ: bool,
}

// Tells of a row that came out as its file says.
fn add_same(line: &mut Text, differ: bool, sweep: u64) {
    if differ {
        add(line, b": it must come out otherwise, and doesn't");
    } else if sweep != 0 {
        add(line, b" sweep ");
        add_number(line, sweep);
    }
}

// Tells of a row that came out otherwise.
fn add_other(line: &mut Text, differ: bool, what: &[u8]) {
    add(line, if differ { b" differs: " } else { b": " });
    add(line, what);
}

impl Report {
    /// An empty one.
    pub fn new(alloc: Global, differ: bool) -> Report {
        Report {
            text: Vec::new(alloc),
            differ,
        }
    }

    /// The text.
    pub fn bytes(&self) -> &[u8] {
        &self.text
    }

    /// Tells what became of a row: so many further runs were as they must be, or something was otherwise.
    pub(crate) fn tell(
        &mut self,
        counts: &mut Counts,
        name: &[u8],
        swept: &Swept,
    ) -> Result<(), NoMemory> {
        let is_same = swept.difference.is_none();
        let good = is_same != self.differ;
        counts.count(good);
        let mut line = Text::new();
        add(&mut line, if good { b"ok " } else { b"differs " });
        add(&mut line, name);
        if is_same {
            add_same(&mut line, self.differ, swept.runs);
        } else {
            add_other(&mut line, self.differ, swept.difference.text());
        }
        add(&mut line, b"\n");
        self.text.extend_from_slice(line.as_slice())?;
        Ok(())
    }
}
