//! Streams that are interrupted or come late.

use crate::streams::{sink_step, source_step};
use fw_real::{Reading, Timed, Writing};
use lines_of_rows::{Told, cut_word};
use std::io::{self, ErrorKind, Read, Write};

fn error(kind: ErrorKind) -> io::Error {
    io::Error::from(kind)
}

// A stream whose first read and flush are interrupted. Then it gives a byte, is late, fails, and ends; the second flush
// fails. It can't be told to wait 7 seconds.
#[derive(Drop)]
struct Uneven {
    calls: u32,
}

impl Uneven {
    fn call(&mut self) -> u32 {
        self.calls = self.calls.saturating_add(1);
        self.calls
    }
}

impl Read for Uneven {
    fn read(&mut self, buf: &mut [u8]) -> io::Result<usize> {
        match (self.call(), buf.first_mut()) {
            (1, _) => Err(error(ErrorKind::Interrupted)),
            (2, Some(first)) => {
                *first = b'x';
                Ok(1)
            }
            (3, _) => Err(error(ErrorKind::WouldBlock)),
            (4, _) => Err(error(ErrorKind::Other)),
            _ => Ok(0),
        }
    }
}

impl Write for Uneven {
    fn write(&mut self, _: &[u8]) -> io::Result<usize> {
        Ok(0)
    }

    fn flush(&mut self) -> io::Result<()> {
        match self.call() {
            1 => Err(error(ErrorKind::Interrupted)),
            3 => Err(error(ErrorKind::Other)),
            _ => Ok(()),
        }
    }
}

impl Timed for Uneven {
    fn set_wait(&self, seconds: u32) -> io::Result<()> {
        if seconds == 7 {
            return Err(error(ErrorKind::InvalidInput));
        }
        Ok(())
    }

    fn is_late(&self, fault: &io::Error) -> bool {
        fault.kind() == ErrorKind::WouldBlock
    }
}

/// `uneven-source STEP|STEP|.. => ANSWERS`: an uneven stream is read.
pub(crate) fn tell_uneven_source(asked: &[u8], out: &mut Told) {
    let mut source = Reading::new(Uneven { calls: 0 });
    for step in asked.split(|byte| *byte == b'|') {
        let (word, rest) = cut_word(step);
        source_step(&mut source, word, rest, out);
    }
}

/// `uneven-sink STEP|STEP|.. => ANSWERS`: it is written.
pub(crate) fn tell_uneven_sink(asked: &[u8], out: &mut Told) {
    let mut sink = Writing::new(Uneven { calls: 0 });
    for step in asked.split(|byte| *byte == b'|') {
        let (word, rest) = cut_word(step);
        sink_step(&mut sink, word, rest, out);
    }
}
