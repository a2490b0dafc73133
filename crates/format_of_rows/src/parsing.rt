use crate::line::{Line, lines_of};
use crate::section::{Section, add_line};
use crate::{Fault, Row, Why};
use std::alloc::Global;

// The lines of each row.
fn sections_of<'a>(alloc: Global, lines: &[Line<'a>]) -> Result<Vec<Section<'a>>, Fault> {
    let mut sections = Vec::new(alloc);
    for line in lines {
        if let Err(why) = add_line(alloc, &mut sections, line) {
            return Err(why.at(line.number));
        }
    }
    Ok(sections)
}

// Adds a row, whose lines are then there for later rows to take over.
fn add_row<'a>(
    alloc: Global,
    section: Section<'a>,
    earlier: &mut Vec<Section<'a>>,
    rows: &mut Vec<Row>,
) -> Result<(), Fault> {
    let number = section.number;
    let section = section.complete(alloc, earlier)?;
    let row = Row::of(alloc, &section, earlier)?;
    if rows.push(row).is_err() || earlier.push(section).is_err() {
        return Err(Why::NoMemory.at(number));
    }
    Ok(())
}

/// The rows of a file, in order, or the first line that can't be read.
///
/// A row takes over the lines of the earlier row that it is like, but for those about what it says itself; `after`
/// names an earlier row too.
pub fn parse(alloc: Global, bytes: &[u8]) -> Result<Vec<Row>, Fault> {
    let lines = lines_of(alloc, bytes)?;
    let sections = sections_of(alloc, &lines)?;
    let mut earlier = Vec::new(alloc);
    let mut rows = Vec::new(alloc);
    for section in sections {
        add_row(alloc, section, &mut earlier, &mut rows)?;
    }
    Ok(rows)
}
