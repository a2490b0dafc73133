//! The lines of a row file.

use crate::keyword::Keyword;
use crate::{Fault, Why};
use std::alloc::Global;

/// A line with a keyword.
#[derive(Clone, Copy)]
pub(crate) struct Line<'a> {
    pub(crate) keyword: Keyword,
    /// What follows the keyword and a blank.
    pub(crate) text: &'a [u8],
    /// Counted from 1.
    pub(crate) number: usize,
}

/// What stands before the first blank, and what stands behind it.
pub(crate) fn split_word(text: &[u8]) -> (&[u8], &[u8]) {
    match text.iter().position(|byte| *byte == b' ') {
        Some(at) => (
            text.get(..at).unwrap_or(text),
            text.get(at.saturating_add(1)..).unwrap_or(&[]),
        ),
        None => (text, &[]),
    }
}

// Whether the line says nothing.
fn is_skipped(text: &[u8]) -> bool {
    matches!(text.first(), None | Some(b'#'))
}

fn read_line(text: &[u8], number: usize) -> Result<Line<'_>, Fault> {
    let (word, rest) = split_word(text);
    let Some(keyword) = Keyword::read(word) else {
        return Err(Why::UnknownKeyword.at(number));
    };
    if keyword.stands_alone() && !rest.is_empty() {
        return Err(Why::TextBehind.at(number));
    }
    Ok(Line {
        keyword,
        text: rest,
        number,
    })
}

/// The lines with a keyword, in order.
pub(crate) fn lines_of(alloc: Global, bytes: &[u8]) -> Result<Vec<Line<'_>>, Fault> {
    let mut lines = Vec::new(alloc);
    let mut number: usize = 0;
    for text in bytes.split(|byte| *byte == b'\n') {
        number = number.saturating_add(1);
        if !is_skipped(text) {
            let line = read_line(text, number)?;
            if lines.push(line).is_err() {
                return Err(Why::NoMemory.at(number));
            }
        }
    }
    Ok(lines)
}
