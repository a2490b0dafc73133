//! Bytes as a text: `\n`, `\r`, `\t`, `\\` and `\}` stand for one byte each, `\xHH` for the byte with this number, and
//! `\{N TEXT}` for N times the bytes of TEXT. Any other byte stands for itself.

use crate::Why;
use std::alloc::Global;

/// The most times that a text is repeated.
const MOST_TIMES: u64 = 1_000_000;

#[derive(Clone, Copy)]
enum State {
    /// Bytes that stand for themselves.
    Plain,
    /// Behind a backslash.
    Escape,
    /// Behind `\x`.
    HighDigit,
    /// Behind `\x` and a digit with this value.
    LowDigit(u8),
    /// Behind `\{` and digits with this value.
    Count(u64),
}

#[derive(Drop)]
struct Reader {
    out: Vec<u8>,
    /// What is repeated, and how many times, where that has begun.
    piece: Vec<u8>,
    times: Option<u64>,
    state: State,
}

fn digit_of(byte: u8) -> Option<u8> {
    match byte {
        b'0'..=b'9' => Some(byte - b'0'),
        b'a'..=b'f' => Some(byte - b'a' + 10),
        b'A'..=b'F' => Some(byte - b'A' + 10),
        _ => None,
    }
}

fn repeat(out: &mut Vec<u8>, piece: &[u8], times: u64) -> Result<(), Why> {
    for _ in 0..times {
        out.extend_from_slice(piece)?;
    }
    Ok(())
}

impl Reader {
    fn put(&mut self, byte: u8) -> Result<(), Why> {
        self.state = State::Plain;
        match self.times {
            Some(_) => self.piece.push(byte)?,
            None => self.out.push(byte)?,
        }
        Ok(())
    }

    fn plain(&mut self, byte: u8) -> Result<(), Why> {
        match (byte, self.times) {
            (b'\\', _) => {
                self.state = State::Escape;
                Ok(())
            }
            (b'}', Some(times)) => {
                repeat(&mut self.out, &self.piece, times)?;
                self.piece.clear();
                self.times = None;
                Ok(())
            }
            _ => self.put(byte),
        }
    }

    fn escape(&mut self, byte: u8) -> Result<(), Why> {
        match byte {
            b'n' => self.put(b'\n'),
            b'r' => self.put(b'\r'),
            b't' => self.put(b'\t'),
            b'\\' | b'}' => self.put(byte),
            b'x' => {
                self.state = State::HighDigit;
                Ok(())
            }
            b'{' if self.times.is_none() => {
                self.state = State::Count(0);
                Ok(())
            }
            _ => Err(Why::BadEscape),
        }
    }

    fn high(&mut self, byte: u8) -> Result<(), Why> {
        match digit_of(byte) {
            Some(digit) => {
                self.state = State::LowDigit(digit);
                Ok(())
            }
            None => Err(Why::BadEscape),
        }
    }

    fn low(&mut self, high: u8, byte: u8) -> Result<(), Why> {
        match digit_of(byte) {
            Some(digit) => self.put(high.wrapping_mul(16) | digit),
            None => Err(Why::BadEscape),
        }
    }

    fn count(&mut self, value: u64, byte: u8) -> Result<(), Why> {
        if byte == b' ' {
            self.times = Some(value);
            self.state = State::Plain;
            return Ok(());
        }
        match digit_of(byte) {
            Some(digit) if digit < 10 => {
                let value = value.saturating_mul(10).saturating_add(u64::from(digit));
                self.state = State::Count(value);
                if value > MOST_TIMES {
                    return Err(Why::BadNumber);
                }
                Ok(())
            }
            _ => Err(Why::BadEscape),
        }
    }

    fn read(&mut self, byte: u8) -> Result<(), Why> {
        match self.state {
            State::Plain => self.plain(byte),
            State::Escape => self.escape(byte),
            State::HighDigit => self.high(byte),
            State::LowDigit(high) => self.low(high, byte),
            State::Count(value) => self.count(value, byte),
        }
    }

    fn is_ended(&self) -> bool {
        matches!(self.state, State::Plain) && self.times.is_none()
    }
}

/// The bytes that a text stands for.
pub(crate) fn unescaped(alloc: Global, text: &[u8]) -> Result<Vec<u8>, Why> {
    let mut reader = Reader {
        out: Vec::new(alloc),
        piece: Vec::new(alloc),
        times: None,
        state: State::Plain,
    };
    for byte in text {
        reader.read(*byte)?;
    }
    if !reader.is_ended() {
        return Err(Why::BadEscape);
    }
    Ok(reader.out)
}

/// Adds the bytes that a text stands for, and an end.
pub(crate) fn add_unescaped(
    alloc: Global,
    out: &mut Vec<u8>,
    text: &[u8],
    end: &[u8],
) -> Result<(), Why> {
    let bytes = unescaped(alloc, text)?;
    out.extend_from_slice(&bytes)?;
    out.extend_from_slice(end)?;
    Ok(())
}
