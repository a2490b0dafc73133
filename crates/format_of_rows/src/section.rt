//! The lines of one row.

use crate::keyword::Keyword;
use crate::line::Line;
use crate::{Fault, Why};
use std::alloc::Global;

/// A row's name and its lines.
#[derive(Drop)]
pub(crate) struct Section<'a> {
    pub(crate) name: &'a [u8],
    /// The number of the line with the name.
    pub(crate) number: usize,
    pub(crate) lines: Vec<Line<'a>>,
}

/// The place of the row with this name.
pub(crate) fn place_of(sections: &[Section], name: &[u8]) -> Option<usize> {
    for (place, section) in sections.iter().enumerate() {
        if section.name == name {
            return Some(place);
        }
    }
    None
}

impl<'a> Section<'a> {
    // Whether a line is of the same family.
    fn has_family(&self, keyword: Keyword) -> bool {
        self.lines
            .iter()
            .any(|line| line.keyword.family() == keyword.family())
    }

    // The name of the row that this one is like.
    fn model(&self) -> Option<Line<'a>> {
        for line in &self.lines {
            if line.keyword == Keyword::Like {
                return Some(*line);
            }
        }
        None
    }

    // Adds the other row's lines, where this one has none of the family.
    fn take_over(&self, other: &Section<'a>, out: &mut Vec<Line<'a>>) -> Result<(), Why> {
        for line in &other.lines {
            if line.keyword.is_taken_over() && !self.has_family(line.keyword) {
                out.push(*line)?;
            }
        }
        Ok(())
    }

    // The lines of the other row that this one takes over, and then its own.
    fn lines_like(&self, alloc: Global, other: &Section<'a>) -> Result<Vec<Line<'a>>, Why> {
        let mut lines = Vec::new(alloc);
        self.take_over(other, &mut lines)?;
        lines.extend_from_slice(&self.lines)?;
        Ok(lines)
    }

    /// Takes over what the row that this one is like says.
    pub(crate) fn complete(
        mut self,
        alloc: Global,
        earlier: &[Section<'a>],
    ) -> Result<Section<'a>, Fault> {
        let Some(model) = self.model() else {
            return Ok(self);
        };
        let Some(place) = place_of(earlier, model.text) else {
            return Err(Why::UnknownRow.at(model.number));
        };
        match earlier.get(place) {
            Some(other) => match self.lines_like(alloc, other) {
                Ok(lines) => self.lines = lines,
                Err(why) => return Err(why.at(model.number)),
            },
            None => return Err(Why::UnknownRow.at(model.number)),
        }
        Ok(self)
    }
}

// Begins a row.
fn begin<'a>(alloc: Global, sections: &mut Vec<Section<'a>>, line: &Line<'a>) -> Result<(), Why> {
    if line.text.is_empty() {
        return Err(Why::NoName);
    }
    if place_of(sections, line.text).is_some() {
        return Err(Why::SameName);
    }
    sections.push(Section {
        name: line.text,
        number: line.number,
        lines: Vec::new(alloc),
    })?;
    Ok(())
}

/// Adds a line to the row that it belongs to.
pub(crate) fn add_line<'a>(
    alloc: Global,
    sections: &mut Vec<Section<'a>>,
    line: &Line<'a>,
) -> Result<(), Why> {
    if line.keyword == Keyword::Row {
        return begin(alloc, sections, line);
    }
    match sections.last_mut() {
        Some(section) => {
            section.lines.push(*line)?;
            Ok(())
        }
        None => Err(Why::NoRow),
    }
}
