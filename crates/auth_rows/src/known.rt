//! Which lines a scene may have.

use crate::fault::{Fault, Line, check};

const WORDS: [&str; 31] = [
    "scene",
    "table",
    "user",
    "record",
    "limit",
    "fails",
    "port-fails",
    "session",
    "clock",
    "client",
    "given",
    "source",
    "idle",
    "sink",
    "ends",
    "asked",
    "moments",
    "closed",
    "response",
    "password",
    "keeps",
    "unopened",
    "telnet",
    "says",
    "told",
    "log",
    "server",
    "passed",
    "dials",
    "sink-room",
    "log-room",
];

fn is_listed(word: &str) -> bool {
    for known in WORDS {
        if known == word {
            return true;
        }
    }
    false
}

// Whether the line is one of those that a scene may have.
fn is_known(line: &Line<'_>) -> bool {
    let word = line.word();
    line.is_blank() || line.is_row() || word == "sweep" || is_listed(word)
}

// Whether what stands behind such a word is a number, or numbers between commas.
fn has_numbers(word: &str) -> bool {
    match word {
        "limit" | "fails" | "port-fails" | "clock" | "sink-room" | "log-room" => true,
        "source" | "idle" | "sink" => true,
        _ => false,
    }
}

// Whether such a word may have a `+` at the end.
fn may_go_on(word: &str) -> bool {
    word == "source" || word == "idle" || word == "sink"
}

fn are_digits(text: &str) -> bool {
    for byte in text.as_bytes() {
        if !byte.is_ascii_digit() && *byte != b',' {
            return false;
        }
    }
    !text.is_empty()
}

// Whether what stands behind the line's word is what is read of it, where that is numbers.
fn are_numbers(line: &Line<'_>) -> bool {
    let word = line.word();
    if !has_numbers(word) {
        return true;
    }
    let text = line.text_behind();
    match text.strip_suffix("+") {
        Some(digits) => may_go_on(word) && are_digits(digits),
        None => are_digits(text),
    }
}

/// Whether each line is one that a scene may have, with numbers where they are read.
pub(crate) fn know(lines: &[Line<'_>]) -> Result<(), Fault> {
    for line in lines {
        check(line, is_known(line), b"no such line")?;
        check(line, are_numbers(line), b"no number")?;
    }
    Ok(())
}

// The line behind which a session is told of, if a session is: until it is held.
fn told_of<'a>(before: Option<Line<'a>>, line: Line<'a>) -> Option<Line<'a>> {
    match line.word() {
        "session" | "telnet" => Some(line),
        "ends" => None,
        _ => before,
    }
}

/// Whether each session that begins is held, before another one begins and before the scene ends.
pub(crate) fn know_ends(lines: &[Line<'_>]) -> Result<(), Fault> {
    let mut told: Option<Line<'_>> = None;
    for line in lines {
        if let Some(begun) = told {
            let begins = line.word() == "session" || line.word() == "telnet";
            check(&begun, !begins, b"no end of this session")?;
        }
        told = told_of(told, *line);
    }
    match told {
        Some(begun) => Err(begun.differs(b"no end of this session")),
        None => Ok(()),
    }
}
