//! Texts within what is told.

use lines_of_rows::{Told, add, add_number, add_word};

/// Adds a text in brackets. Of more than 64 bytes it is the first eight, `..` and how many there are.
pub(crate) fn add_text(out: &mut Told, text: &[u8]) {
    add_word(out, b"[");
    if text.len() > 64 {
        add(out, &text[..8]);
        add(out, b"..");
        add_number(out, text.len() as u64);
    } else {
        add(out, text);
    }
    add(out, b"]");
}
