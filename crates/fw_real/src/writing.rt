ghost use Rattle.std.specs.Prelude.{◌≡◌};
ghost use Rattle.std.specs.Io.KnownBytes.{Keeps};
ghost use Rattle.fw_outside.specs.Counts.{Rose, counted};
ghost use Rattle.fw_outside.specs.SinkView.{Gives, TellsEnd};
ghost use Rattle.fw_real.specs.Moving.{Writes, unseen};

use fw_outside::{Failed, Sink};
use std::io::{self, ErrorKind, Write};

// Flushes, and again after each signal.
#[tactic(auto, using(crate::proofs::MovingLemmas::keeps_here, crate::proofs::MovingLemmas::keeps_then))]
fn flush_again<W: Write>(to: &mut W) -> io::Result<()>
    ensures { Keeps (W.contents to.old) (W.contents to.new) }
{
    for _ in 0..u64::MAX {
        match to.flush() {
            Err(fault) if fault.kind() == ErrorKind::Interrupted => {}
            answer => return answer,
        }
    }
    Err(io::Error::from(ErrorKind::Interrupted))
}

/// Bytes that are written: to standard output, to standard error, or to a file. A write that a signal interrupts goes
/// on. One to a socket whose reader doesn't read fails after the time that was set for the socket.
#[derive(Drop)]
pub struct Writing<W> {
    to: W,
    faults: u64,
}

impl<W> Writing<W> {
    /// The bytes that are written to there. Nothing is counted yet.
    pub fn new(to: W) -> Writing<W>
        ensures to { result.to ≡ to }
        ensures faults { result.faults ≡ 0 }
    {
        Writing { to, faults: 0 }
    }

    fn fail(&mut self) -> Failed
        ensures rose { Rose self.old.faults self.new.faults }
        ensures is { self.new ≡ record self.old { faults = counted self.old.faults } }
    {
        self.faults = self.faults.saturating_add(1);
        Failed
    }
}

impl<W: Write + Drop> Sink for Writing<W> {
    ghost sink_view = { λ s. unseen s.faults };

    fn give(&mut self, piece: &[u8]) -> Result<(), Failed>
        ensures gives { Gives result piece.now (unseen self.old.faults) (unseen self.new.faults) }
        ensures bytes { Writes result piece.now (W.contents self.old.to) (W.contents self.new.to) }
    {
        match self.to.write_all(piece) {
            Ok(()) => Ok(()),
            Err(_) => Err(self.fail()),
        }
    }

    fn end(&mut self) -> Result<(), Failed>
        ensures ends { TellsEnd result (unseen self.old.faults) (unseen self.new.faults) }
        ensures bytes { Keeps (W.contents self.old.to) (W.contents self.new.to) }
    {
        match flush_again(&mut self.to) {
            Ok(()) => Ok(()),
            Err(_) => Err(self.fail()),
        }
    }
}
