//! Texts with escapes.

use crate::telling::digit;
use fw_types::NoMemory;
use std::alloc::Global;

// Where the reader of a text stands.
#[derive(Clone, Copy)]
enum At {
    Text,
    Slash,
    High,
    Low(u8),
    Count,
}

#[derive(Drop)]
struct Reader {
    out: Vec<u8>,
    // The text that is repeated, where one is open.
    run: Vec<u8>,
    times: u64,
    in_run: bool,
    at: At,
}

// The number that a hexadecimal digit is, or 0.
fn value_of(digit: u8) -> u8 {
    match digit {
        b'0'..=b'9' => digit - b'0',
        b'a'..=b'f' => digit - b'a' + 10,
        b'A'..=b'F' => digit - b'A' + 10,
        _ => 0,
    }
}

fn byte_of(high: u8, low: u8) -> u8 {
    value_of(high).wrapping_mul(16).wrapping_add(value_of(low))
}

impl Reader {
    fn put(&mut self, byte: u8) -> Result<(), NoMemory> {
        self.at = At::Text;
        if self.in_run {
            self.run.push(byte)?;
        } else {
            self.out.push(byte)?;
        }
        Ok(())
    }

    fn end_run(&mut self) -> Result<(), NoMemory> {
        for _ in 0..self.times {
            self.out.extend_from_slice(&self.run)?;
        }
        self.in_run = false;
        Ok(())
    }

    fn text(&mut self, byte: u8) -> Result<(), NoMemory> {
        match byte {
            b'\\' => {
                self.at = At::Slash;
                Ok(())
            }
            b')' if self.in_run => self.end_run(),
            _ => self.put(byte),
        }
    }

    fn begin_count(&mut self) {
        self.at = At::Count;
        self.times = 0;
        self.run.clear();
    }

    fn escape(&mut self, byte: u8) -> Result<(), NoMemory> {
        match byte {
            b'n' => self.put(b'\n'),
            b'r' => self.put(b'\r'),
            b't' => self.put(b'\t'),
            b's' => self.put(b' '),
            b'0' => self.put(0),
            b'x' => {
                self.at = At::High;
                Ok(())
            }
            b'(' => {
                self.begin_count();
                Ok(())
            }
            _ => self.put(byte),
        }
    }

    fn count(&mut self, byte: u8) {
        if byte == b':' {
            self.in_run = true;
            self.at = At::Text;
            return;
        }
        let digit = u64::from(value_of(byte));
        self.times = self.times.saturating_mul(10).saturating_add(digit);
    }

    fn step(&mut self, byte: u8) -> Result<(), NoMemory> {
        match self.at {
            At::Text => self.text(byte),
            At::Slash => self.escape(byte),
            At::High => {
                self.at = At::Low(byte);
                Ok(())
            }
            At::Low(high) => self.put(byte_of(high, byte)),
            At::Count => {
                self.count(byte);
                Ok(())
            }
        }
    }
}

/// The bytes that the text stands for.
pub fn unescape(alloc: Global, text: &str) -> Result<Vec<u8>, NoMemory> {
    let mut reader = Reader {
        out: Vec::new(alloc),
        run: Vec::new(alloc),
        times: 0,
        in_run: false,
        at: At::Text,
    };
    for byte in text.as_bytes() {
        reader.step(*byte)?;
    }
    let Reader { out, .. } = reader;
    Ok(out)
}

/// The bytes of these pairs of hexadecimal digits.
pub fn from_hex(alloc: Global, digits: &str) -> Result<Vec<u8>, NoMemory> {
    let mut out = Vec::new(alloc);
    let mut first = None;
    for digit in digits.as_bytes() {
        match first.take() {
            None => first = Some(*digit),
            Some(high) => out.push(byte_of(high, *digit))?,
        }
    }
    Ok(out)
}

/// The text with escapes that stands for these bytes.
pub fn escape(alloc: Global, bytes: &[u8]) -> Result<Vec<u8>, NoMemory> {
    let mut out = Vec::new(alloc);
    for byte in bytes {
        match *byte {
            b'\\' => out.extend_from_slice(b"\\\\")?,
            b'\n' => out.extend_from_slice(b"\\n")?,
            b'\r' => out.extend_from_slice(b"\\r")?,
            b' '..=b'~' => out.push(*byte)?,
            other => {
                let digits = [b'\\', b'x', digit(other / 16), digit(other % 16)];
                out.extend_from_slice(&digits)?;
            }
        }
    }
    Ok(out)
}
