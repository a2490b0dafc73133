//! Which messages a client was told to be kept, and in which slots.

use crate::mail::letters::{Letter, letter_at};
use fw_types::NoMemory;
use lines_of_rows::number_of;
use std::alloc::Global;

const KEPT: &[u8] = b"250 Message kept in slot ";

/// A message that was told as kept: the slot's number, and which of the client's messages it is.
#[derive(Clone, Copy)]
pub(crate) struct Kept {
    pub(crate) slot: u64,
    pub(crate) letter: u64,
}

// What was heard: how many messages are answered, and whether the next one's data is awaited.
#[derive(Clone, Copy)]
struct Heard {
    letters: u64,
    in_data: bool,
}

// The number in a line that tells of a message that was kept.
fn slot_told(line: &[u8]) -> Option<u64> {
    let rest = line.strip_prefix(KEPT)?;
    let digits = rest.strip_suffix(b"\r").unwrap_or(rest);
    Some(number_of(digits))
}

// Whether data is refused, before it is sent.
fn is_refusal(line: &[u8]) -> bool {
    line.starts_with(b"451 ") || line.starts_with(b"452 ")
}

impl Heard {
    fn answered(self) -> Heard {
        Heard {
            letters: self.letters.saturating_add(1),
            in_data: false,
        }
    }

    // Behind one more line.
    fn after(self, line: &[u8]) -> Heard {
        if line.starts_with(b"354 ") {
            return Heard {
                letters: self.letters,
                in_data: true,
            };
        }
        if self.in_data || is_refusal(line) {
            return self.answered();
        }
        self
    }
}

// The lines that were told whole.
fn whole_lines(text: &[u8]) -> &[u8] {
    match text.iter().rposition(|byte| *byte == b'\n') {
        Some(at) => text.get(..at).unwrap_or(&[]),
        None => &[],
    }
}

/// The messages that a client was told to be kept.
pub(crate) fn kept_of(alloc: Global, told: &[u8]) -> Result<Vec<Kept>, NoMemory> {
    let mut all = Vec::new(alloc);
    let mut heard = Heard {
        letters: 0,
        in_data: false,
    };
    for line in whole_lines(told).split(|byte| *byte == b'\n') {
        if let Some(slot) = slot_told(line) {
            let letter = heard.letters;
            all.push(Kept { slot, letter })?;
        }
        heard = heard.after(line);
    }
    Ok(all)
}

// Whether a line of the text ends so.
fn has_line(text: &[u8], end: &[u8]) -> bool {
    for line in text.split(|byte| *byte == b'\n') {
        if line.ends_with(end) {
            return true;
        }
    }
    false
}

// Whether the log has the line of a message in this slot.
fn is_logged(alloc: Global, log: &[u8], slot: u64, letter: Letter) -> Result<bool, NoMemory> {
    let (count, size) = (letter.rcpt_count(), letter.body.len());
    let end = format!(in alloc; " slot {slot} recipients {count} bytes {size}")?;
    Ok(has_line(log, end.as_bytes()))
}

// Whether it has the line of this one.
fn is_kept_logged(alloc: Global, letters: &[u8], kept: Kept, log: &[u8]) -> Result<bool, NoMemory> {
    match letter_at(letters, kept.letter) {
        Some(letter) => is_logged(alloc, log, kept.slot, letter),
        None => Ok(false),
    }
}

/// Whether the log has the line of each of them.
pub(crate) fn are_logged(
    alloc: Global,
    letters: &[u8],
    all: &[Kept],
    log: &[u8],
) -> Result<bool, NoMemory> {
    for kept in all {
        if !is_kept_logged(alloc, letters, *kept, log)? {
            return Ok(false);
        }
    }
    Ok(true)
}

/// The message that was told as kept in a slot: the last one.
pub(crate) fn kept_in(all: &[Kept], slot: u64) -> Option<Kept> {
    let mut last = None;
    for kept in all {
        if kept.slot == slot {
            last = Some(*kept);
        }
    }
    last
}
