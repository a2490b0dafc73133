ghost use Rattle.std.specs.Prelude.{◌≡◌, ◌==◌, ◌+◌, ◌-◌, ◌<◌, ◌≤◌, [], ◌++◌, length, take, IfErr, IfSome, IfNone, OnOk, OnErr};
ghost use Rattle.std.specs.Bool.{OnTrue, OnFalse};
ghost use Rattle.fw_outside.specs.LineText.{GathersLine, GathersAll, Fills, IsDrained, Pops};
ghost use Rattle.fw_outside.specs.LineReaderView.{Listens, ReadsByte, TakesNothing};

use crate::line_text::LineText;
use crate::{Got, Heard, Source, Stop};
use arrayvec::ArrayVec;
use fw_types::copy_of;
use std::marker::Model;

/// A reader of lines, each of at most 512 bytes, which takes at most 4,096 bytes ahead of what it gives.
#[derive(Drop)]
pub struct LineReader {
    taken: ArrayVec<u8, 4096>,
    at: usize,
    room: u64,
}

impl Model for LineReader {
    ghost use Rattle.std.specs.Prelude.{◌≤◌, length, drop};
    ghost use Rattle.fw_outside.specs.LineReaderView.{LineReaderView};

    ghost Value = { LineReaderView };

    ghost view = { λ r. record { pending = drop r.at r.taken.items; room = r.room } };

    ghost invariant = { λ r. r.at ≤ length r.taken.items };
}

impl LineReader {
    /// A reader that takes at most so many bytes from its source.
    pub fn new(room: u64) -> LineReader
        ensures { result ≡ record { pending = []; room = room } }
    {
        LineReader {
            taken: ArrayVec::new(),
            at: 0,
            room,
        }
    }

    /// The bytes that were taken and not heard yet.
    pub fn pending(&self) -> &[u8]
        ensures bytes { result.now ≡ self.now.pending }
        ensures near { length self.now.pending ≤ 4096 }
    {
        &self.taken[self.at..]
    }

    /// How many more bytes may be taken.
    pub fn room(&self) -> u64
        ensures { result ≡ self.now.room }
    {
        self.room
    }

    // Whether no more bytes may be taken.
    fn is_spent(&self) -> bool
        ensures spent { result ≡ (self.now.room == 0) }
        ensures near { length self.now.pending ≤ 4096 }
    {
        // that shows `near`
        let _ = self.pending();
        self.room == 0
    }

    // Puts bytes that were taken into the empty buffer.
    fn keep(&mut self, bytes: &[u8])
        requires fits { length bytes.now ≤ 4096 }
        requires room { length bytes.now ≤ self.old.room }
        ensures { self.new ≡ record { pending = bytes.now; room = self.old.room - length bytes.now } }
    {
        self.taken = copy_of(bytes);
        self.at = 0;
        self.room -= bytes.len() as u64;
    }

    // Takes the next bytes into the empty buffer.
    fn fill<S: Source>(&mut self, from: &mut S) -> Result<(), Stop>
        requires empty { self.old.pending ≡ [] }
        requires more { 0 < self.old.room }
        ensures fills { OnOk result (Fills self.old self.new (S.source_view from.old) (S.source_view from.new)) }
        ensures misses { IfErr result (λ stop. TakesNothing stop (S.source_view from.old) (S.source_view from.new)) }
        ensures kept { OnErr result (self.new ≡ self.old) }
    {
        let most = self.room.min(4096) as usize;
        let mut buffer = [0; 4096];
        match from.take(&mut buffer[..most]) {
            Ok(Got::Bytes(count)) => {
                self.keep(&buffer[..count]);
                Ok(())
            }
            Ok(Got::End) => Err(Stop::End),
            Ok(Got::Idle) => Err(Stop::Idle),
            Err(_) => Err(Stop::Failed),
        }
    }

    // Moves the buffer's bytes to a text, up to the end of the line if that is there.
    fn move_on(&mut self, text: &mut LineText) -> bool
        ensures line { OnTrue result (GathersLine text.old text.new self.old self.new) }
        ensures all { OnFalse result (GathersAll text.old text.new self.old self.new) }
        ensures near { length self.new.pending ≤ 4096 }
    {
        match text.gather(&self.taken[self.at..]) {
            Some(end) => {
                self.at += end + 1;
                true
            }
            None => {
                self.at = self.taken.len();
                false
            }
        }
    }

    /// The next line, without its end, if one is heard before the source stops. Where as many bytes were taken as may
    /// be, the reader stops for good: what was taken last, at most 4,096 bytes, isn't heard.
    pub fn next<S: Source>(&mut self, from: &mut S) -> Heard
        ensures listens { Listens result self.old self.new (S.source_view from.old) (S.source_view from.new) }
        ensures near { length self.new.pending ≤ 4096 }
    {
        let mut text = LineText::new();
        loop {
            if self.is_spent() {
                return Heard::Stopped(Stop::Spent);
            }
            if self.move_on(&mut text) {
                return text.heard();
            }
            if let Err(stop) = self.fill(from) {
                return Heard::Stopped(stop);
            }
        }
    }

    // Takes the first byte out of the buffer, unless that is empty.
    fn pop(&mut self) -> Option<u8>
        ensures byte { IfSome result (λ byte. Pops byte self.old self.new) }
        ensures none { IfNone result (IsDrained self.old self.new) }
        ensures near { length self.new.pending ≤ 4096 }
    {
        let byte = self.taken.get(self.at).copied()?;
        self.at += 1;
        Some(byte)
    }

    /// The next byte, if one comes before the source stops. Where as many bytes were taken as may be, the reader stops for
    /// good, as at `next`: what was taken last, at most 4,096 bytes, isn't read.
    pub fn next_byte<S: Source>(&mut self, from: &mut S) -> Result<u8, Stop>
        ensures reads { ReadsByte result self.old self.new (S.source_view from.old) (S.source_view from.new) }
        ensures near { length self.new.pending ≤ 4096 }
    {
        loop {
            if self.is_spent() {
                return Err(Stop::Spent);
            }
            if let Some(byte) = self.pop() {
                return Ok(byte);
            }
            if let Err(stop) = self.fill(from) {
                return Err(stop);
            }
        }
    }
}
