//! Texts that are expected in parts.

use crate::texts::{first_lines, later_lines};
use crate::writing::{Text, add_escaped};

/// A text in three parts.
#[derive(Clone, Copy)]
pub(crate) struct Parts<'a> {
    first: &'a [u8],
    second: &'a [u8],
    third: &'a [u8],
}

// The text up to its last blank.
fn without_last_word(text: &[u8]) -> &[u8] {
    let mut end = 0;
    for (at, byte) in text.iter().enumerate() {
        if *byte == b' ' {
            end = at.saturating_add(1);
        }
    }
    text.get(..end).unwrap_or(&[])
}

/// A text whole.
pub(crate) fn whole(text: &[u8]) -> Parts<'_> {
    Parts {
        first: text,
        second: &[],
        third: &[],
    }
}

/// A text, and another behind it.
pub(crate) fn both<'a>(text: &'a [u8], more: &'a [u8]) -> Parts<'a> {
    Parts {
        first: text,
        second: more,
        third: &[],
    }
}

/// The text but for this line, counted from 0.
pub(crate) fn without_line(text: &[u8], line: u64) -> Parts<'_> {
    Parts {
        first: first_lines(text, line),
        second: later_lines(text, line.saturating_add(1)),
        third: &[],
    }
}

/// The text with this for its last word.
pub(crate) fn with_last_word<'a>(text: &'a [u8], word: &'a [u8]) -> Parts<'a> {
    Parts {
        first: without_last_word(text),
        second: word,
        third: b"\n",
    }
}

impl<'a> Parts<'a> {
    /// Whether the text is this.
    pub(crate) fn are(&self, text: &[u8]) -> bool {
        match text.strip_prefix(self.first) {
            Some(rest) => match rest.strip_prefix(self.second) {
                Some(rest) => rest == self.third,
                None => false,
            },
            None => false,
        }
    }

    /// Adds the text with its quotes.
    pub(crate) fn add_quoted(&self, out: &mut Text) {
        add_escaped(out, b"\"");
        add_escaped(out, self.first);
        add_escaped(out, self.second);
        add_escaped(out, self.third);
        add_escaped(out, b"\"");
    }
}
