ghost use Rattle.std.specs.Prelude.{◌≡◌, ◌<◌, ◌≤◌, false, length, IfOk};
ghost use Rattle.std.specs.Io.KnownBytes.{ReadConsumes};
ghost use Rattle.fw_outside.specs.Counts.{Grew};
ghost use Rattle.fw_outside.specs.FilesView.{has_failed};
ghost use Rattle.fw_outside.specs.SourceView.{Takes, waiting};
ghost use Rattle.fw_real.specs.Moving.{HandsOn, untold_source};

use crate::Timed;
use fw_outside::{Failed, Got, Source};
use std::io::{self, ErrorKind, Read};

// The count of bytes after so many more came.
fn amount_after(amount: u64, count: usize) -> u64
    ensures { Grew count amount result }
{
    amount.saturating_add(count as u64)
}

// Reads once, and again after each signal.
#[tactic(auto, using(crate::proofs::MovingLemmas::keeps_here, crate::proofs::MovingLemmas::keeps_then, crate::proofs::MovingLemmas::reads_after))]
fn read_again<R: Read>(from: &mut R, buf: &mut [u8]) -> io::Result<usize>
    ensures bound { IfOk result (λ n. n ≤ length buf.new) }
    ensures bytes { ReadConsumes (R.remaining from.old) (R.remaining from.new) result buf.new }
{
    for _ in 0..u64::MAX {
        match from.read(buf) {
            Err(fault) if fault.kind() == ErrorKind::Interrupted => {}
            answer => return answer,
        }
    }
    Err(io::Error::from(ErrorKind::Interrupted))
}

// Why a read brought nothing.
enum Refusal {
    Late,
    Failed,
}

/// Bytes that are read to their end: those of standard input, or of a file. It counts the bytes that it gave, the reads
/// that failed, and those for which nothing came in time. A read that a signal interrupts is tried again.
#[derive(Drop)]
pub struct Reading<R> {
    from: R,
    is_set: bool,
    amount: u64,
    faults: u64,
    idles: u64,
    waits: u32,
    waited: u32,
}

impl<R> Reading<R> {
    /// The bytes that are read from here. Nothing is counted yet, and its patience is an hour.
    pub fn new(from: R) -> Reading<R>
        ensures from { result.from ≡ from }
        ensures amount { result.amount ≡ 0 }
        ensures faults { result.faults ≡ 0 }
        ensures idles { result.idles ≡ 0 }
        ensures waits { result.waits ≡ 3600 }
        ensures waited { result.waited ≡ 0 }
    {
        Reading {
            from,
            is_set: false,
            amount: 0,
            faults: 0,
            idles: 0,
            waits: 3600,
            waited: 0,
        }
    }

    /// Whether a read has failed, or brought nothing in time.
    pub(crate) fn has_failed(&self) -> bool
        ensures { result ≡ has_failed (untold_source self.now.amount self.now.faults self.now.idles self.now.waits
            self.now.waited) }
    {
        if self.faults > 0 {
            return true;
        }
        self.idles > 0
    }
}

impl<R: Read + Timed> Reading<R> {
    // Reads, once the wait is set.
    #[tactic(auto, using(crate::proofs::MovingLemmas::keeps_here))]
    fn read_in_time(&mut self, buf: &mut [u8]) -> Result<usize, Refusal>
        ensures bound { IfOk result (λ n. n ≤ length buf.new) }
        ensures bytes { ReadConsumes (R.remaining self.old.from) (R.remaining self.new.from) result buf.new }
        ensures same { self.new ≡ record self.old { from = self.new.from; is_set = self.new.is_set } }
    {
        if !self.is_set {
            self.is_set = self.from.set_wait(self.waits).is_ok();
        }
        if !self.is_set {
            return Err(Refusal::Failed);
        }
        match read_again(&mut self.from, buf) {
            Ok(count) => Ok(count),
            Err(fault) => {
                if self.from.is_late(&fault) {
                    Err(Refusal::Late)
                } else {
                    Err(Refusal::Failed)
                }
            }
        }
    }
}

impl<R: Read + Timed + Drop> Source for Reading<R> {
    ghost source_view = { λ s. untold_source s.amount s.faults s.idles s.waits s.waited };

    fn take(&mut self, buf: &mut [u8]) -> Result<Got, Failed>
        requires { 0 < length buf.old }
        ensures takes { Takes result buf.new
            (untold_source self.old.amount self.old.faults self.old.idles self.old.waits self.old.waited)
            (untold_source self.new.amount self.new.faults self.new.idles self.new.waits self.new.waited) }
        ensures bytes { HandsOn result buf.new (R.remaining self.old.from) (R.remaining self.new.from) }
    {
        match self.read_in_time(buf) {
            Ok(0) => Ok(Got::End),
            Ok(count) => {
                self.amount = amount_after(self.amount, count);
                Ok(Got::Bytes(count))
            }
            Err(Refusal::Late) => {
                self.idles = self.idles.saturating_add(1);
                self.waited = self.waits;
                Ok(Got::Idle)
            }
            Err(Refusal::Failed) => {
                self.faults = self.faults.saturating_add(1);
                Err(Failed)
            }
        }
    }

    fn patience(&mut self, seconds: u32)
        ensures waits { untold_source self.new.amount self.new.faults self.new.idles self.new.waits self.new.waited ≡
            waiting (untold_source self.old.amount self.old.faults self.old.idles self.old.waits self.old.waited)
            seconds }
        ensures from { self.new.from ≡ self.old.from }
    {
        self.waits = seconds;
        self.is_set = self.from.set_wait(seconds).is_ok();
    }
}
