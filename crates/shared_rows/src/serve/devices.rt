//! Clients, each of whom says a line once enough was told to all of them.
ghost use Rattle.std.specs.Prelude.{◌≡◌, ◌<◌, Ok, length, min};
ghost use Rattle.fw_memory.specs.MemSinkView.{sink_view_of};
ghost use Rattle.fw_outside.specs.Counts.{Grew, Rose};
ghost use Rattle.fw_outside.specs.SourceView.{Takes};
ghost use Rattle.shared_rows.specs.Clients.{silent};

use fw_memory::MemSink;
use fw_outside::{Failed, Got, Sink, Source};
use std::sync::Wait;
use std::sync::atomic::{AtomicU64, Ordering};
use std::thread::Parker;
use std::time::Duration;

// How often it is looked whether enough was told, with a rest between.
const LOOKS: u64 = 20_000;

/// What a client says, line by line: each once so many marks were told.
pub(crate) type Script = &'static [(u64, &'static [u8])];

/// How what is told to a client begins, where it counts as a mark, in order.
pub(crate) type Marks = &'static [&'static [u8]];

/// What goes to a client, which counts each mark among all that are told.
#[derive(Drop)]
pub(crate) struct Marked<'a> {
    pub(crate) sink: MemSink,
    pub(crate) marks: Marks,
    pub(crate) at: usize,
    pub(crate) told: &'a AtomicU64,
}

// Whether the piece begins as the mark at this place.
fn is_mark(marks: Marks, at: usize, piece: &[u8]) -> bool {
    match marks.get(at) {
        Some(mark) => piece.starts_with(mark),
        None => false,
    }
}

impl Marked<'_> {
    fn note(&mut self, piece: &[u8])
        ensures { self.new.sink ≡ self.old.sink }
    {
        if is_mark(self.marks, self.at, piece) {
            self.at = self.at.saturating_add(1);
            self.told.fetch_add(1, Ordering::SeqCst);
        }
    }
}

impl Sink for Marked<'_> {
    ghost sink_view = { λ s. sink_view_of s.sink };

    fn give(&mut self, piece: &[u8]) -> Result<(), Failed> {
        let given = self.sink.give(piece);
        self.note(piece);
        given
    }

    fn end(&mut self) -> Result<(), Failed> {
        self.sink.end()
    }
}

/// What comes from a client. Where what is waited for takes too long, nothing comes. It doesn't tell what it has left.
#[derive(Drop)]
pub(crate) struct Scripted<'a, H> {
    pub(crate) rt: &'a H,
    pub(crate) told: &'a AtomicU64,
    pub(crate) script: Script,
    pub(crate) line: usize,
    pub(crate) said: usize,
    pub(crate) amount: u64,
    pub(crate) idles: u64,
    pub(crate) waits: u32,
    pub(crate) waited: u32,
}

// The count after so many more.
fn more(count: u64, by: usize) -> u64
    ensures { Grew by count result }
{
    count.saturating_add(by as u64)
}

// The count after one more.
fn one_more(count: u64) -> u64
    ensures { Rose count result }
{
    count.saturating_add(1)
}

// Whether so many marks were told, in time.
fn is_told<H: Wait>(rt: &H, told: &AtomicU64, marks: u64) -> bool {
    let rest = Parker::new();
    for _ in 0..LOOKS {
        if told.load(Ordering::SeqCst) >= marks {
            return true;
        }
        rest.park_timeout(rt, Duration::from_millis(1));
    }
    false
}

// Puts as much into the buffer as fits: how much that is.
fn put(line: &[u8], buf: &mut [u8]) -> usize
    ensures count { result ≡ min (length line.now) (length buf.old) }
    ensures room { length buf.new ≡ length buf.old }
{
    let count = line.len().min(buf.len());
    buf[..count].copy_from_slice(&line[..count]);
    count
}

impl<H: Wait> Scripted<'_, H> {
    // What is left of the line.
    fn left(&self) -> &[u8] {
        match self.script.get(self.line) {
            Some((_, line)) => line.get(self.said..).unwrap_or(&[]),
            None => &[],
        }
    }

    // How many marks the line waits for.
    fn marks(&self) -> u64 {
        match self.script.get(self.line) {
            Some((marks, _)) => *marks,
            None => 0,
        }
    }

    // Goes on to the next line, where this one was said. Whether what it waits for was told.
    fn turns(&mut self) -> bool
        ensures amount { self.new.amount ≡ self.old.amount }
        ensures idles { self.new.idles ≡ self.old.idles }
        ensures waits { self.new.waits ≡ self.old.waits }
        ensures waited { self.new.waited ≡ self.old.waited }
    {
        if self.left().is_empty() {
            self.line = self.line.saturating_add(1);
            self.said = 0;
        }
        is_told(self.rt, self.told, self.marks())
    }

    fn idle(&mut self) -> Got
        ensures answer { result ≡ Got.Idle }
        ensures amount { self.new.amount ≡ self.old.amount }
        ensures idles { Rose self.old.idles self.new.idles }
        ensures waits { self.new.waits ≡ self.old.waits }
        ensures waited { self.new.waited ≡ self.old.waits }
    {
        self.line = self.script.len();
        self.idles = one_more(self.idles);
        self.waited = self.waits;
        Got::Idle
    }

    // Says what fits of the line; where none is left, it is the end.
    fn say(&mut self, buf: &mut [u8]) -> Got
        requires { 0 < length buf.old }
        ensures { Takes (Ok result) buf.new (silent self.old.amount self.old.idles self.old.waits self.old.waited)
            (silent self.new.amount self.new.idles self.new.waits self.new.waited) }
    {
        let count = put(self.left(), buf);
        if count == 0 {
            return Got::End;
        }
        self.said = self.said.saturating_add(count);
        self.amount = more(self.amount, count);
        Got::Bytes(count)
    }
}

impl<H: Wait> Source for Scripted<'_, H> {
    ghost source_view = { λ s. silent s.amount s.idles s.waits s.waited };

    fn take(&mut self, buf: &mut [u8]) -> Result<Got, Failed> {
        if !self.turns() {
            return Ok(self.idle());
        }
        Ok(self.say(buf))
    }

    fn patience(&mut self, seconds: u32) {
        self.waits = seconds;
    }
}
