ghost use Rattle.std.specs.Prelude.{◌≡◌, ◌==◌, ◌<◌, ◌≤◌, ◌++◌, min, length, take, drop};
ghost use Rattle.fw_outside.specs.FilesView.{has_failed};
ghost use Rattle.fw_outside.specs.Counts.{counted};
ghost use Rattle.fw_memory.specs.CallsView.{comes_at};
ghost use Rattle.fw_outside.specs.SourceView.{Broke, Idled, Takes, waiting};
ghost use Rattle.fw_memory.specs.MemSourceView.{CountsTake, CountsNone, handed, new_mem_source, source_view_of, take_result};

use crate::Calls;
use fw_outside::{Failed, Got, Mark, Source};
use fw_types::Octets;
use std::marker::Model;

/// A source of bytes in memory, which fails and is idle at the calls that it is told.
#[derive(Drop)]
pub struct MemSource {
    bytes: Octets,
    at: usize,
    piece: usize,
    fails: Calls,
    idle: Calls,
    calls: u64,
    faults: u64,
    idles: u64,
    waits: u32,
    waited: u32,
    mark: Mark,
}

impl Model for MemSource {
    ghost use Rattle.std.specs.Prelude.{◌<◌, ◌≤◌, length, take, drop};
    ghost use Rattle.fw_memory.specs.MemSourceView.{MemSourceView};

    ghost Value = { MemSourceView };

    ghost view = { λ s. record {
      taken = take s.at s.bytes;
      left = drop s.at s.bytes;
      piece = s.piece;
      fails = s.fails;
      idle = s.idle;
      calls = s.calls;
      faults = s.faults;
      idles = s.idles;
      waits = s.waits;
      waited = s.waited;
      mark = s.mark;
    } };

    ghost invariant = { λ s. (s.at ≤ length s.bytes) × (0 < s.piece) };
}

impl MemSource {
    /// A source that gives these bytes, at most `piece` at a call. At a call that is in `fails` it fails, and at
    /// another that is in `idle` nothing comes.
    pub fn new(bytes: Octets, piece: usize, fails: Calls, idle: Calls) -> MemSource
        requires { 0 < piece }
        ensures { result ≡ new_mem_source bytes piece fails idle }
    {
        MemSource {
            bytes,
            at: 0,
            piece,
            fails,
            idle,
            calls: 0,
            faults: 0,
            idles: 0,
            waits: 3600,
            waited: 0,
            mark: Mark::Own,
        }
    }

    // Marks it as that of a link which was asked for so.
    pub(crate) fn mark_as(&mut self, mark: Mark)
        ensures { self.new ≡ record self.old { mark = mark } }
    {
        self.mark = mark;
    }

    // Whether a call failed or was idle.
    pub(crate) fn has_failed(&self) -> bool
        ensures { result ≡ has_failed (source_view_of self.now) }
    {
        self.faults > 0 || self.idles > 0
    }

    // How often it failed.
    pub(crate) fn faults(&self) -> u64
        ensures { result ≡ self.now.faults }
    {
        self.faults
    }

    // How often nothing came.
    pub(crate) fn idles(&self) -> u64
        ensures { result ≡ self.now.idles }
    {
        self.idles
    }

    // Counts one more call, and tells its number.
    fn call(&mut self) -> u64
        ensures number { result ≡ self.old.calls }
        ensures is { self.new ≡ record self.old { calls = counted self.old.calls } }
    {
        let call = self.calls;
        self.calls = call.saturating_add(1);
        call
    }

    fn is_failing(&self, call: u64) -> bool
        ensures { result ≡ comes_at self.now.fails call }
    {
        self.fails.contains(call)
    }

    fn is_idle(&self, call: u64) -> bool
        ensures { result ≡ comes_at self.now.idle call }
    {
        self.idle.contains(call)
    }

    fn fail(&mut self) -> Failed
        ensures breaks { Broke (source_view_of self.old) (source_view_of self.new) }
        ensures is { self.new ≡ record self.old { faults = counted self.old.faults } }
    {
        self.faults = self.faults.saturating_add(1);
        Failed
    }

    fn idle(&mut self) -> Got
        ensures idles { Idled (source_view_of self.old) (source_view_of self.new) }
        ensures is { self.new ≡ record self.old { idles = counted self.old.idles; waited = self.old.waits } }
        ensures answer { result ≡ Got.Idle }
    {
        self.idles = self.idles.saturating_add(1);
        self.waited = self.waits;
        Got::Idle
    }

    // How many bytes go into a buffer of this length.
    fn count(&self, room: usize) -> usize
        requires { 0 < room }
        ensures count { result ≡ min (min self.now.piece room) (length self.now.left) }
        ensures some { 0 < length self.now.left → 0 < result }
        ensures room { result ≤ room }
    {
        self.piece.min(room).min(self.bytes.bytes().len() - self.at)
    }

    fn is_over(&self) -> bool
        ensures { result ≡ (length self.now.left == 0) }
    {
        self.at == self.bytes.bytes().len()
    }

    // Copies the next bytes, so many of them.
    fn copy_next(&mut self, buf: &mut [u8], count: usize)
        requires left { count ≤ length self.old.left }
        requires room { count ≤ length buf.old }
        ensures copied { take count buf.new ≡ take count self.old.left }
        ensures is { self.new ≡ record self.old {
          taken = self.old.taken ++ take count self.old.left;
          left =
              drop count self.old.left;
        } }
    {
        let bytes = self.bytes.bytes();
        let end = self.at + count;
        buf[..count].copy_from_slice(&bytes[self.at..end]);
        self.at = end;
    }

    // Gives the next bytes, or the end.
    fn hand(&mut self, buf: &mut [u8]) -> Got
        requires { 0 < length buf.old }
        ensures takes { Takes (Ok result) buf.new (source_view_of self.old) (source_view_of self.new) }
        ensures answer { result ≡ handed self.old (length buf.new) }
        ensures kept { CountsNone self.old self.new }
    {
        if self.is_over() {
            return Got::End;
        }
        let count = self.count(buf.len());
        self.copy_next(buf, count);
        Got::Bytes(count)
    }
}

impl Source for MemSource {
    ghost source_view = { source_view_of };

    fn take(&mut self, buf: &mut [u8]) -> Result<Got, Failed>
        requires { 0 < length buf.old }
        ensures takes { Takes result buf.new (source_view_of self.old) (source_view_of self.new) }
        ensures answer { result ≡ take_result self.old (length buf.new) }
        ensures once { CountsTake self.old self.new }
    {
        let call = self.call();
        if self.is_failing(call) {
            return Err(self.fail());
        }
        if self.is_idle(call) {
            return Ok(self.idle());
        }
        Ok(self.hand(buf))
    }

    fn patience(&mut self, seconds: u32)
        ensures waits { source_view_of self.new ≡ waiting (source_view_of self.old) seconds }
        ensures is { self.new ≡ record self.old { waits = seconds } }
    {
        self.waits = seconds;
    }
}
