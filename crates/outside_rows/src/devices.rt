//! What is told of devices in memory.

use fw_memory::{Calls, MemClock, MemDice, MemFiles, MemSink, MemSource};
use fw_outside::{Clock, Dice, Failed, Files, Got, Sink, Source};
use fw_types::{NoMemory, Octets};
use lines_of_rows::{Told, add_hex, add_number, add_word, cut, cut_word, number_of, numbers_of};
use std::alloc::Global;

/// The calls with the numbers between commas, none for `-`, or all from a number on for `N+`. They are copied once.
pub(crate) fn calls_of(alloc: Global, text: &[u8]) -> Result<Calls, NoMemory> {
    match text {
        [b'-'] => Ok(Calls::none()),
        [digits @ .., b'+'] => Ok(Calls::onward(number_of(digits))),
        _ => Calls::of(alloc, &numbers_of(alloc, text)?)?.copy(alloc),
    }
}

/// `clock CALLS MOMENTS => MOMENT ..`.
pub(crate) fn tell_clock(alloc: Global, asked: &[u8], out: &mut Told) -> Result<(), NoMemory> {
    let (calls, moments) = cut_word(asked);
    let mut clock = MemClock::new(numbers_of(alloc, moments)?);
    for _ in 0..number_of(calls) {
        add_number(out, clock.now());
    }
    Ok(())
}

/// `dice CALLS FIRST => SALT ..`.
pub(crate) fn tell_dice(asked: &[u8], out: &mut Told) {
    let (calls, first) = cut_word(asked);
    let mut dice = MemDice::new(number_of(first));
    for _ in 0..number_of(calls) {
        add_hex(out, &dice.salt());
    }
}

/// One take of at most four bytes.
pub(crate) fn tell_take(source: &mut MemSource, out: &mut Told) {
    let mut buffer = [0; 4];
    match source.take(&mut buffer) {
        Ok(Got::Bytes(count)) => add_word(out, &buffer[..count]),
        Ok(Got::End) => add_word(out, b"-end"),
        Ok(Got::Idle) => add_word(out, b"-idle"),
        Err(Failed) => add_word(out, b"-failed"),
    }
}

/// A source of this text, of which so many bytes come at once, and which fails and idles at these calls.
pub(crate) fn source_of(
    alloc: Global,
    piece: &[u8],
    fails: &[u8],
    idles: &[u8],
    text: &[u8],
) -> Result<MemSource, NoMemory> {
    let piece = number_of(piece).max(1) as usize;
    let fails = calls_of(alloc, fails)?;
    let idles = calls_of(alloc, idles)?;
    let text = Octets::copy(alloc, text)?;
    Ok(MemSource::new(text, piece, fails, idles))
}

/// A sink with so much room, which fails at these calls.
pub(crate) fn sink_of(alloc: Global, room: &[u8], fails: &[u8]) -> Result<MemSink, NoMemory> {
    let fails = calls_of(alloc, fails)?;
    MemSink::new(alloc, number_of(room) as usize, fails)
}

/// `source CALLS PIECE FAILS IDLES TEXT => TAKEN ..`, with a buffer of four bytes.
pub(crate) fn tell_source(alloc: Global, asked: &[u8], out: &mut Told) -> Result<(), NoMemory> {
    let (calls, rest) = cut_word(asked);
    let (piece, rest) = cut_word(rest);
    let (fails, rest) = cut_word(rest);
    let (idles, text) = cut_word(rest);
    let mut source = source_of(alloc, piece, fails, idles, text)?;
    source.patience(60);
    for _ in 0..number_of(calls) {
        tell_take(&mut source, out);
    }
    Ok(())
}

fn tell_answer(answer: Result<(), Failed>, out: &mut Told) {
    match answer {
        Ok(()) => add_word(out, b"ok"),
        Err(Failed) => add_word(out, b"failed"),
    }
}

/// `sink ROOM FAILS TEXT .. => ok .. GIVEN`: each text is given, and `-end` is the end.
pub(crate) fn tell_sink(alloc: Global, asked: &[u8], out: &mut Told) -> Result<(), NoMemory> {
    let (room, rest) = cut_word(asked);
    let (fails, texts) = cut_word(rest);
    let mut sink = sink_of(alloc, room, fails)?;
    for text in texts.split(|byte| *byte == b' ') {
        let answer = if text == b"-end".as_slice() {
            sink.end()
        } else {
            sink.give(text)
        };
        tell_answer(answer, out);
    }
    add_word(out, sink.bytes());
    Ok(())
}

// The files of the texts `NAME=BYTES` between commas.
fn files_of(alloc: Global, texts: &[u8]) -> Result<MemFiles, NoMemory> {
    let mut files = Vec::new(alloc);
    for text in texts.split(|byte| *byte == b',') {
        let (name, bytes) = cut(text, b'=');
        files.push((Octets::copy(alloc, name)?, Octets::copy(alloc, bytes)?))?;
    }
    Ok(MemFiles::new(alloc, files, 8, Calls::none(), Calls::none()))
}

/// `files NAME=BYTES,.. NAME .. => TAKEN .. NAME ..`: the first four bytes of each, or `-none`, and then the names that
/// the files say were asked.
pub(crate) fn tell_files(alloc: Global, asked: &[u8], out: &mut Told) -> Result<(), NoMemory> {
    let (texts, names) = cut_word(asked);
    let mut files = files_of(alloc, texts)?;
    for name in names.split(|byte| *byte == b' ') {
        match files.source(name) {
            Some(mut source) => {
                tell_take(&mut source, out);
                files.back(source);
            }
            None => add_word(out, b"-none"),
        }
    }
    for name in files.asked() {
        add_word(out, name.bytes());
    }
    Ok(())
}
