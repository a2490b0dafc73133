ghost use Rattle.std.specs.Prelude.{◌≡◌, ◌<◌, ◌≤◌, true, length, IfOk};
ghost use Rattle.std.specs.Io.Buffered.{reader_remaining};
ghost use Rattle.std.specs.Io.KnownBytes.{ReadConsumes};
ghost use Rattle.fw_outside.specs.Counts.{Grew};
ghost use Rattle.fw_outside.specs.SourceView.{Takes, waiting};
ghost use Rattle.fw_outside.specs.declared.mark.Mark.TheVariants.{Own};
ghost use Rattle.real_links.specs.Links.{HandsOn, untold_source};

use crate::Address;
use crate::wait::set_wait;
use fw_outside::{Failed, Got, Mark, Source};
use real_waits::{Activity, Waited};
use std::alloc::Global;
use std::io::{self, BufReader, ErrorKind, Read};
use std::net::OpenStream;
use std::os::fd::AsRawFd;
use std::sync::Arc;

// The count of bytes after so many more came.
fn amount_after(amount: u64, count: usize) -> u64
    ensures { Grew count amount result }
{
    amount.saturating_add(count as u64)
}

// Reads once, and again after each signal.
#[tactic(auto, using(crate::proofs::MovingLemmas::keeps_here, crate::proofs::MovingLemmas::keeps_then, crate::proofs::MovingLemmas::reads_after))]
fn read_again<S: Read>(from: &mut S, buf: &mut [u8]) -> io::Result<usize>
    ensures bound { IfOk result (λ n. n ≤ length buf.new) }
    ensures bytes { ReadConsumes (S.remaining from.old) (S.remaining from.new) result buf.new }
{
    for _ in 0..u64::MAX {
        match from.read(buf) {
            Err(fault) if fault.kind() == ErrorKind::Interrupted => {}
            answer => return answer,
        }
    }
    Err(io::Error::from(ErrorKind::Interrupted))
}

// Why a read brought nothing.
enum Refusal {
    Late,
    Failed,
}

/// What comes over a link. It reads ahead, and gives what was read before it reads again. It counts the bytes that it gave,
/// the reads that failed, and those for which nothing came in time. A read that a signal interrupts is tried again.
///
/// If it has the activity of a session, nothing came in time only where nothing moved in all the session for so long, and a
/// read before which the client has gone has failed.
#[derive(Drop)]
pub struct LinkSource<S> {
    socket: BufReader<S>,
    to: Address,
    is_set: bool,
    amount: u64,
    faults: u64,
    idles: u64,
    waits: u32,
    waited: u32,
    mark: Mark,
    activity: Option<Arc<Activity, Global>>,
}

impl<S> LinkSource<S> {
    /// What comes over a socket that leads there and waits so many seconds, in a session of this activity. Nothing is counted
    /// yet.
    pub(crate) fn new(
        socket: BufReader<S>,
        to: Address,
        waits: u32,
        activity: Option<Arc<Activity, Global>>,
    ) -> LinkSource<S>
        ensures socket { result.socket ≡ socket }
        ensures to { result.to ≡ to }
        ensures amount { result.amount ≡ 0 }
        ensures faults { result.faults ≡ 0 }
        ensures idles { result.idles ≡ 0 }
        ensures waits { result.waits ≡ waits }
        ensures waited { result.waited ≡ 0 }
        ensures mark { result.mark ≡ Own }
    {
        LinkSource {
            socket,
            to,
            is_set: true,
            amount: 0,
            faults: 0,
            idles: 0,
            waits,
            waited: 0,
            mark: Mark::Own,
            activity,
        }
    }

    /// Marks it as that of a link which was asked for so.
    pub(crate) fn mark_as(&mut self, mark: Mark)
        ensures { self.new ≡ record self.old { mark = mark } }
    {
        self.mark = mark;
    }

    /// Where the link leads.
    pub fn address(&self) -> Address
        ensures { result ≡ self.now.to }
    {
        self.to
    }

    /// How many reads failed.
    pub fn faults(&self) -> u64
        ensures { result ≡ self.now.faults }
    {
        self.faults
    }

    /// How many reads brought nothing in time.
    pub fn idles(&self) -> u64
        ensures { result ≡ self.now.idles }
    {
        self.idles
    }

    // Notes that bytes came.
    fn note(&self) {
        if let Some(activity) = &self.activity {
            activity.note();
        }
    }
}

impl<S: Read + OpenStream + AsRawFd> LinkSource<S> {
    // Waits until a read has something to answer.
    fn wait(&self) -> Waited {
        match &self.activity {
            Some(activity) if self.socket.buffer().is_empty() => {
                activity.wait_beside_client(self.socket.get_ref().as_raw_fd(), self.waits)
            }
            _ => Waited::Ready,
        }
    }

    // Reads, once the wait is set, and over.
    #[tactic(auto, using(crate::proofs::MovingLemmas::keeps_here))]
    fn read_in_time(&mut self, buf: &mut [u8]) -> Result<usize, Refusal>
        ensures bound { IfOk result (λ n. n ≤ length buf.new) }
        ensures bytes { ReadConsumes (reader_remaining S.remaining self.old.socket)
            (reader_remaining S.remaining self.new.socket) result buf.new }
        ensures same { self.new ≡ record self.old { socket = self.new.socket; is_set = self.new.is_set } }
    {
        if !self.is_set {
            self.is_set = set_wait(self.socket.get_ref(), self.waits).is_ok();
        }
        if !self.is_set {
            return Err(Refusal::Failed);
        }
        match self.wait() {
            Waited::Ready => {}
            Waited::Late => return Err(Refusal::Late),
            Waited::Gone => return Err(Refusal::Failed),
        }
        match read_again(&mut self.socket, buf) {
            Ok(count) => Ok(count),
            Err(fault) if fault.kind() == ErrorKind::WouldBlock => Err(Refusal::Late),
            Err(_) => Err(Refusal::Failed),
        }
    }
}

impl<S: Read + OpenStream + AsRawFd + Drop> Source for LinkSource<S> {
    ghost source_view = { λ s. untold_source s.amount s.faults s.idles s.waits s.waited s.mark };

    fn take(&mut self, buf: &mut [u8]) -> Result<Got, Failed>
        requires { 0 < length buf.old }
        ensures takes { Takes result buf.new
            (untold_source self.old.amount self.old.faults self.old.idles self.old.waits self.old.waited self.old.mark)
            (untold_source self.new.amount self.new.faults self.new.idles self.new.waits self.new.waited self.new.mark) }
        ensures bytes { HandsOn result buf.new (reader_remaining S.remaining self.old.socket)
            (reader_remaining S.remaining self.new.socket) }
        ensures to { self.new.to ≡ self.old.to }
    {
        match self.read_in_time(buf) {
            Ok(0) => Ok(Got::End),
            Ok(count) => {
                self.note();
                self.amount = amount_after(self.amount, count);
                Ok(Got::Bytes(count))
            }
            Err(Refusal::Late) => {
                self.idles = self.idles.saturating_add(1);
                self.waited = self.waits;
                Ok(Got::Idle)
            }
            Err(Refusal::Failed) => {
                self.faults = self.faults.saturating_add(1);
                Err(Failed)
            }
        }
    }

    /// A write to the same link waits as long, for a reader who doesn't read.
    fn patience(&mut self, seconds: u32)
        ensures waits { untold_source self.new.amount self.new.faults self.new.idles self.new.waits self.new.waited self.new.mark ≡
            waiting (untold_source self.old.amount self.old.faults self.old.idles self.old.waits self.old.waited self.old.mark)
            seconds }
        ensures socket { self.new.socket ≡ self.old.socket }
        ensures to { self.new.to ≡ self.old.to }
    {
        self.waits = seconds;
        self.is_set = set_wait(self.socket.get_ref(), seconds).is_ok();
    }
}
