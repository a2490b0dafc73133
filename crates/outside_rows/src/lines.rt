//! What is told of the reader of lines.

use crate::devices::source_of;
use fw_outside::{Heard, LineReader, Stop};
use fw_types::NoMemory;
use lines_of_rows::{Told, add, add_word, cut_word, number_of};
use std::alloc::Global;

fn tell_heard(heard: &Heard, out: &mut Told) {
    match heard {
        Heard::Line(line) => {
            add_word(out, b"[");
            add(out, line.as_slice());
            add(out, b"]");
        }
        Heard::TooLong => add_word(out, b"too-long"),
        Heard::Stopped(Stop::End) => add_word(out, b"end"),
        Heard::Stopped(Stop::Idle) => add_word(out, b"idle"),
        Heard::Stopped(Stop::Failed) => add_word(out, b"failed"),
        Heard::Stopped(Stop::Spent) => add_word(out, b"spent"),
    }
}

/// `lines CALLS ROOM PIECE FAILS IDLES TEXT => HEARD ..`: the lines stand in brackets.
pub(crate) fn tell_lines(alloc: Global, asked: &[u8], out: &mut Told) -> Result<(), NoMemory> {
    let (calls, rest) = cut_word(asked);
    let (room, rest) = cut_word(rest);
    let (piece, rest) = cut_word(rest);
    let (fails, rest) = cut_word(rest);
    let (idles, text) = cut_word(rest);
    let mut source = source_of(alloc, piece, fails, idles, text)?;
    let mut reader = LineReader::new(number_of(room));
    for _ in 0..number_of(calls) {
        tell_heard(&reader.next(&mut source), out);
    }
    Ok(())
}
