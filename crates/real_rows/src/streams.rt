//! Files that are read and written.

use crate::system::{System, path_of};
use crate::telling::{tell_bytes, tell_done, tell_unknown};
use fw_outside::{Files, Got, Sink, Source};
use fw_real::{Paths, Reading, Writing};
use lines_of_rows::{Told, add_word, cut_word, number_of};
use std::fs::{self, File};

fn take<S: Source>(source: &mut S, out: &mut Told) {
    let mut buf = [0; 5];
    match source.take(&mut buf) {
        Ok(Got::Bytes(count)) => tell_bytes(buf.get(..count).unwrap_or(&[]), out),
        Ok(Got::End) => add_word(out, b"end"),
        Ok(Got::Idle) => add_word(out, b"idle"),
        Err(_) => add_word(out, b"failed"),
    }
}

/// `take`, into five bytes, or `patience SECONDS`.
pub(crate) fn source_step<S: Source>(source: &mut S, word: &[u8], rest: &[u8], out: &mut Told) {
    match word {
        b"take" => take(source, out),
        b"patience" => source.patience(u32::try_from(number_of(rest)).unwrap_or(0)),
        _ => tell_unknown(out),
    }
}

/// `give TEXT` or `end`.
pub(crate) fn sink_step<K: Sink>(sink: &mut K, word: &[u8], rest: &[u8], out: &mut Told) {
    match word {
        b"give" => tell_done(sink.give(rest).is_ok(), out),
        b"end" => tell_done(sink.end().is_ok(), out),
        _ => tell_unknown(out),
    }
}

// A source, a sink, and files by their paths.
#[derive(Drop)]
struct Streams {
    rt: HostRuntime,
    system: System,
    paths: Paths<HostRuntime>,
    source: Option<Reading<File>>,
    sink: Option<Writing<File>>,
}

impl Streams {
    fn new(rt: HostRuntime) -> Streams {
        Streams {
            rt,
            system: System::new(rt),
            paths: Paths::new(rt),
            source: None,
            sink: None,
        }
    }

    // The source at this path is asked for.
    fn find(&mut self, path: &[u8], out: &mut Told) {
        self.source = self.paths.source(path);
        if self.source.is_none() {
            add_word(out, b"missing");
        }
    }

    // The source is given back.
    fn back(&mut self) {
        if let Some(source) = self.source.take() {
            self.paths.back(source);
        }
    }

    fn open(&mut self, path: &str) {
        if let Ok(file) = fs::open(&self.rt, path) {
            self.source = Some(Reading::new(file));
        }
    }

    // A sink that makes the file.
    fn create(&mut self, path: &str) {
        if let Ok(file) = fs::create(&self.rt, path) {
            self.sink = Some(Writing::new(file));
        }
    }

    // A sink over a file that is open to be read alone.
    fn misuse(&mut self, path: &str) {
        if let Ok(file) = fs::open(&self.rt, path) {
            self.sink = Some(Writing::new(file));
        }
    }

    fn source(&mut self, word: &[u8], rest: &[u8], out: &mut Told) {
        match &mut self.source {
            Some(source) => source_step(source, word, rest, out),
            None => add_word(out, b"no source"),
        }
    }

    fn sink(&mut self, word: &[u8], rest: &[u8], out: &mut Told) {
        match &mut self.sink {
            Some(sink) => sink_step(sink, word, rest, out),
            None => add_word(out, b"no sink"),
        }
    }

    fn step(&mut self, step: &[u8], out: &mut Told) {
        let (word, rest) = cut_word(step);
        match word {
            b"find" => self.find(rest, out),
            b"back" => self.back(),
            b"open" => self.open(path_of(rest)),
            b"create" => self.create(path_of(rest)),
            b"misuse" => self.misuse(path_of(rest)),
            b"take" | b"patience" => self.source(word, rest, out),
            b"give" | b"end" => self.sink(word, rest, out),
            _ => self.system.step(word, rest, out),
        }
    }
}

/// `streams STEP|STEP|.. => ANSWERS`.
pub(crate) fn tell_streams(rt: HostRuntime, asked: &[u8], out: &mut Told) {
    let mut streams = Streams::new(rt);
    for step in asked.split(|byte| *byte == b'|') {
        streams.step(step, out);
    }
    drop(streams);
}
