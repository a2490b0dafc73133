ghost use Rattle.std.specs.Prelude.{◌≡◌};
ghost use Rattle.fw_outside.specs.Counts.{Rose, counted};
ghost use Rattle.fw_outside.specs.SinkView.{Gives, TellsEnd};
ghost use Rattle.fw_outside.specs.declared.mark.Mark.TheVariants.{Own};
ghost use Rattle.real_links.specs.Links.{Writes, untold_sink};

use fw_outside::{Failed, Mark, Sink};
use real_waits::Activity;
use std::alloc::Global;
use std::io::Write;
use std::net::{OpenStream, Shutdown};
use std::sync::Arc;

// The most bytes of a piece of a relay.
const PIECE: usize = 4096;

/// What goes over a link. Each piece is written as it is given: a short one is sent at once, and of those of 4,096 bytes
/// the system may send several together, since more may follow. A write that a signal interrupts goes on; one whose reader
/// doesn't read fails after the time for which the link waits. Its end is told to the other side, which can go on giving.
#[derive(Drop)]
pub struct LinkSink<S> {
    socket: S,
    is_hurried: bool,
    faults: u64,
    mark: Mark,
    activity: Option<Arc<Activity, Global>>,
}

impl<S> LinkSink<S> {
    /// What goes over a socket, of no dialer. Nothing is counted yet.
    pub fn new(socket: S) -> LinkSink<S>
        ensures faults { result.faults ≡ 0 }
        ensures mark { result.mark ≡ Own }
    {
        LinkSink::within(None, socket)
    }

    /// The same, in a session of this activity, to which it notes its gifts.
    pub fn within(activity: Option<Arc<Activity, Global>>, socket: S) -> LinkSink<S>
        ensures faults { result.faults ≡ 0 }
        ensures mark { result.mark ≡ Own }
    {
        LinkSink {
            socket,
            is_hurried: false,
            faults: 0,
            mark: Mark::Own,
            activity,
        }
    }

    // Notes that bytes went.
    fn note(&self) {
        if let Some(activity) = &self.activity {
            activity.note();
        }
    }

    /// Marks it as that of a link which was asked for so.
    pub(crate) fn mark_as(&mut self, mark: Mark)
        ensures { self.new ≡ record self.old { mark = mark } }
    {
        self.mark = mark;
    }

    /// How many writes failed.
    pub fn faults(&self) -> u64
        ensures { result ≡ self.now.faults }
    {
        self.faults
    }

    fn fail(&mut self) -> Failed
        ensures rose { Rose self.old.faults self.new.faults }
        ensures mark { self.new.mark ≡ self.old.mark }
        ensures is { self.new ≡ record self.old { faults = counted self.old.faults } }
    {
        self.faults = self.faults.saturating_add(1);
        Failed
    }
}

impl<S: OpenStream> LinkSink<S> {
    // Has the system send what it holds, and each piece from now on, at once; or lets it hold pieces back until it has more
    // to send. A refusal changes only when bytes are sent.
    fn hurry(&mut self, is_hurried: bool)
        ensures socket { self.new.socket ≡ self.old.socket }
        ensures faults { self.new.faults ≡ self.old.faults }
        ensures mark { self.new.mark ≡ self.old.mark }
    {
        if self.is_hurried != is_hurried {
            let _ = self.socket.set_nodelay(is_hurried);
            self.is_hurried = is_hurried;
        }
    }

    // Lets the system hold back a piece behind which more may follow.
    fn unhurry_for(&mut self, piece: &[u8])
        ensures socket { self.new.socket ≡ self.old.socket }
        ensures faults { self.new.faults ≡ self.old.faults }
        ensures mark { self.new.mark ≡ self.old.mark }
    {
        if piece.len() >= PIECE {
            self.hurry(false);
        }
    }

    // Has the system send a piece behind which nothing may follow.
    fn hurry_after(&mut self, piece: &[u8])
        ensures socket { self.new.socket ≡ self.old.socket }
        ensures faults { self.new.faults ≡ self.old.faults }
        ensures mark { self.new.mark ≡ self.old.mark }
    {
        if piece.len() < PIECE {
            self.hurry(true);
        }
    }
}

impl<S: Write + OpenStream> LinkSink<S> {
    fn write(&mut self, piece: &[u8]) -> Result<(), Failed>
        ensures gives { Gives result piece.now (untold_sink self.old.faults self.old.mark) (untold_sink self.new.faults self.new.mark) }
        ensures bytes { Writes result piece.now (S.contents self.old.socket) (S.contents self.new.socket) }
    {
        match self.socket.write_all(piece) {
            Ok(()) => {
                self.note();
                Ok(())
            }
            Err(_) => Err(self.fail()),
        }
    }
}

impl<S: Write + OpenStream + Drop> Sink for LinkSink<S> {
    ghost sink_view = { λ s. untold_sink s.faults s.mark };

    fn give(&mut self, piece: &[u8]) -> Result<(), Failed>
        ensures gives { Gives result piece.now (untold_sink self.old.faults self.old.mark) (untold_sink self.new.faults self.new.mark) }
        ensures bytes { Writes result piece.now (S.contents self.old.socket) (S.contents self.new.socket) }
    {
        self.unhurry_for(piece);
        let answer = self.write(piece);
        self.hurry_after(piece);
        answer
    }

    fn end(&mut self) -> Result<(), Failed>
        ensures ends { TellsEnd result (untold_sink self.old.faults self.old.mark) (untold_sink self.new.faults self.new.mark) }
        ensures socket { self.new.socket ≡ self.old.socket }
    {
        match self.socket.shutdown(Shutdown::Write) {
            Ok(()) => Ok(()),
            Err(_) => Err(self.fail()),
        }
    }
}
