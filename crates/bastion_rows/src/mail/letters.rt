//! The messages that a client sends, as a row lists them: `SENDER>RCPT,RCPT:BODY;..`.

use fw_types::{Message, OctetsList};
use lines_of_rows::cut;

/// A message: its sender, its recipients between commas, and its body.
#[derive(Clone, Copy)]
pub(crate) struct Letter<'a> {
    from: &'a [u8],
    rcpts: &'a [u8],
    pub(crate) body: &'a [u8],
}

impl<'a> Letter<'a> {
    fn of(text: &'a [u8]) -> Letter<'a> {
        let (from, rest) = cut(text, b'>');
        let (rcpts, body) = cut(rest, b':');
        Letter { from, rcpts, body }
    }

    /// How many recipients it has.
    pub(crate) fn rcpt_count(&self) -> u64 {
        let mut count = 1u64;
        for byte in self.rcpts {
            if *byte == b',' {
                count = count.saturating_add(1);
            }
        }
        count
    }

    /// Whether this is the message.
    pub(crate) fn is(&self, message: &Message) -> bool {
        message.from.bytes() == self.from
            && are_rcpts(&message.rcpts, self.rcpts)
            && message.body.bytes() == self.body
    }
}

// Whether these recipients stand between the commas.
fn are_rcpts(rcpts: &OctetsList, text: &[u8]) -> bool {
    let mut words = text.split(|byte| *byte == b',');
    for rcpt in rcpts.as_slice() {
        match words.next() {
            Some(word) if word == rcpt.bytes() => (),
            _ => return false,
        }
    }
    words.next().is_none()
}

/// The message with this number, counted from 0.
pub(crate) fn letter_at(letters: &[u8], number: u64) -> Option<Letter<'_>> {
    let mut at = 0u64;
    for text in letters.split(|byte| *byte == b';') {
        if at == number {
            return Some(Letter::of(text));
        }
        at = at.saturating_add(1);
    }
    None
}

/// Whether it is one of the messages.
pub(crate) fn is_any(letters: &[u8], message: &Message) -> bool {
    for text in letters.split(|byte| *byte == b';') {
        if Letter::of(text).is(message) {
            return true;
        }
    }
    false
}
