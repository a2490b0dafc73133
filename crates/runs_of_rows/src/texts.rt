//! Lines of texts.

/// How many line ends the text has.
pub(crate) fn count_lines(text: &[u8]) -> u64 {
    let mut lines: u64 = 0;
    for byte in text {
        if *byte == b'\n' {
            lines = lines.saturating_add(1);
        }
    }
    lines
}

/// The first bytes of the text, or all.
pub(crate) fn front(text: &[u8], bytes: u64) -> &[u8] {
    match usize::try_from(bytes) {
        Ok(bytes) => text.get(..bytes).unwrap_or(text),
        Err(_) => text,
    }
}

// Where so many lines end.
fn end_of(text: &[u8], lines: u64) -> usize {
    let mut found: u64 = 0;
    for (at, byte) in text.iter().enumerate() {
        if found == lines {
            return at;
        }
        if *byte == b'\n' {
            found = found.saturating_add(1);
        }
    }
    text.len()
}

/// The first lines of the text, with their ends.
pub(crate) fn first_lines(text: &[u8], lines: u64) -> &[u8] {
    text.get(..end_of(text, lines)).unwrap_or(text)
}

/// The text from this line on, counted from 0.
pub(crate) fn later_lines(text: &[u8], line: u64) -> &[u8] {
    text.get(end_of(text, line)..).unwrap_or(&[])
}

/// Whether one of the lines begins with this one, which has its end.
pub(crate) fn has_line(text: &[u8], line: &[u8]) -> bool {
    for at in 0..count_lines(text) {
        if later_lines(text, at).starts_with(line) {
            return true;
        }
    }
    false
}

/// Where the word begins in the text first, if it does.
pub(crate) fn place_of(text: &[u8], word: &[u8]) -> Option<usize> {
    for at in 0..text.len() {
        if text.get(at..).unwrap_or(&[]).starts_with(word) {
            return Some(at);
        }
    }
    None
}

/// At how many places the word begins in the text.
pub(crate) fn count_of(text: &[u8], word: &[u8]) -> u64 {
    let mut found: u64 = 0;
    for at in 0..text.len() {
        if text.get(at..).unwrap_or(&[]).starts_with(word) {
            found = found.saturating_add(1);
        }
    }
    found
}

/// How many of the lines begin with the word.
pub(crate) fn count_lines_of(text: &[u8], word: &[u8]) -> u64 {
    let mut found: u64 = 0;
    for at in 0..count_lines(text) {
        if later_lines(text, at).starts_with(word) {
            found = found.saturating_add(1);
        }
    }
    found
}

/// What stands between the first of these words and the next of those: up to the end where there is none, and nothing
/// where the first is missing.
pub(crate) fn between<'a>(text: &'a [u8], first: &[u8], next: &[u8]) -> &'a [u8] {
    let rest = match place_of(text, first) {
        Some(at) => text.get(at.saturating_add(first.len())..).unwrap_or(&[]),
        None => &[],
    };
    match place_of(rest, next) {
        Some(end) => rest.get(..end).unwrap_or(rest),
        None => rest,
    }
}
