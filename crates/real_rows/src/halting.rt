//! A file in memory that does little at a time.
ghost use Rattle.std.specs.Prelude.{None};

use fw_real::{Place, RawFile};
use std::io::{self, ErrorKind};

/// A file in memory whose calls move two bytes at most, and are interrupted each other time. The second sync fails.
#[derive(Drop)]
pub(crate) struct Halting {
    bytes: [u8; 8],
    len: usize,
    calls: u32,
    syncs: u32,
}

impl Halting {
    fn interrupts(&mut self) -> bool {
        self.calls = self.calls.wrapping_add(1);
        self.calls % 2 == 1
    }

    // Where a place lies in the bytes, up to this end.
    fn place(&self, at: u64, end: usize) -> usize {
        usize::try_from(at).unwrap_or(usize::MAX).min(end)
    }
}

impl RawFile for Halting {
    ghost file_view = { λ file. None };

    fn read_some(&mut self, at: u64, buf: &mut [u8]) -> io::Result<usize> {
        if self.interrupts() {
            return Err(io::Error::from(ErrorKind::Interrupted));
        }
        let place = self.place(at, self.len.min(8));
        let count = self.len.min(8).saturating_sub(place).min(2).min(buf.len());
        for i in 0..count {
            if let (Some(to), Some(byte)) = (
                buf.get_mut(i),
                self.bytes.get(place.wrapping_add(i)),
            ) {
                *to = *byte;
            }
        }
        Ok(count)
    }

    fn write_some(&mut self, at: u64, bytes: &[u8]) -> io::Result<usize> {
        if self.interrupts() {
            return Err(io::Error::from(ErrorKind::Interrupted));
        }
        let place = self.place(at, 8);
        let count = bytes.len().min(2);
        for i in 0..count {
            if let (Some(to), Some(byte)) = (
                self.bytes.get_mut(place.wrapping_add(i)),
                bytes.get(i),
            ) {
                *to = *byte;
            }
        }
        self.len = self.len.max(place.wrapping_add(count));
        Ok(count)
    }

    fn make_length(&mut self, len: u64) -> io::Result<()> {
        self.len = self.place(len, 8);
        Ok(())
    }

    fn sync(&mut self) -> io::Result<()> {
        self.syncs = self.syncs.wrapping_add(1);
        if self.syncs == 2 {
            return Err(io::Error::from(ErrorKind::Other));
        }
        Ok(())
    }
}

/// Where it stands.
#[derive(Drop)]
pub(crate) struct InMemory;

impl Place<Halting> for InMemory {
    fn open(&self) -> io::Result<Option<Halting>> {
        Ok(Some(Halting {
            bytes: [0; 8],
            len: 0,
            calls: 0,
            syncs: 0,
        }))
    }
}
