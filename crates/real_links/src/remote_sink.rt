ghost use Rattle.std.specs.Prelude.{◌≡◌};
ghost use Rattle.std.specs.Result.{IsErr};
ghost use Rattle.fw_outside.specs.SinkView.{Gives, TellsEnd};
ghost use Rattle.real_links.specs.Links.{Writes};
ghost use Rattle.real_links.specs.Remote.{IfSinkDown, IfSinkUp, remote_sink_view};

use crate::LinkSink;
use crate::missed::miss;
use fw_outside::{Failed, Sink};
use std::io::Write;
use std::net::OpenStream;

/// What goes over a link, if it came up. Else each gift fails, and is counted.
#[derive(Drop)]
pub enum RemoteSink<S> {
    Up(LinkSink<S>),
    Down { faults: u64 },
}

impl<S: Write + OpenStream + Drop> Sink for RemoteSink<S> {
    ghost sink_view = { remote_sink_view };

    fn give(&mut self, piece: &[u8]) -> Result<(), Failed>
        ensures gives { Gives result piece.now (remote_sink_view self.old) (remote_sink_view self.new) }
        ensures down { IfSinkDown self.old (IsErr result) }
        ensures bytes { IfSinkUp (λ old new. Writes result piece.now (S.contents old.socket) (S.contents new.socket)) self.old self.new }
    {
        match self {
            RemoteSink::Up(link) => link.give(piece),
            RemoteSink::Down { faults } => Err(miss(faults)),
        }
    }

    fn end(&mut self) -> Result<(), Failed>
        ensures ends { TellsEnd result (remote_sink_view self.old) (remote_sink_view self.new) }
        ensures down { IfSinkDown self.old (IsErr result) }
        ensures socket { IfSinkUp (λ old new. new.socket ≡ old.socket) self.old self.new }
    {
        match self {
            RemoteSink::Up(link) => link.end(),
            RemoteSink::Down { faults } => Err(miss(faults)),
        }
    }
}
