//! A server at the other end of a link, as a port.
ghost use Rattle.std.specs.Prelude.{◌≡◌, ◌^◌, [], false};
ghost use Rattle.auth_events.specs.Port.{Asks};
ghost use Rattle.remote_port.specs.Remote.{AsksRemote, remote_port};
ghost use Rattle.remote_port.specs.Texts.{RemoteTexts};
ghost use Rattle.remote_port.specs.declared.standing.Standing.TheVariants.{New};

use crate::converse::converse;
use crate::link::Link;
use crate::origin::RemoteOrigin;
use crate::talk::Talk;
use auth_events::{AuthPort, PortFault, Reply, Request};
use fw_outside::{Sink, Source};
use std::alloc::Global;
use std::marker::Model;
use std::snapshot::Snapshot;

/// A port over the lines of a server. It keeps its entries, which take memory.
#[derive(Drop)]
pub struct RemotePort<S: Source, K: Sink> {
    pub(crate) talk: Talk,
    link: Link<S, K>,
    from_at_first: Snapshot<S>,
    to_at_first: Snapshot<K>,
}

impl<S: Source, K: Sink> Model for RemotePort<S, K> {
    ghost use Rattle.remote_port.specs.Remote.{RemoteView};
    ghost use Rattle.remote_port.specs.Talk.{talk_of};
    ghost use Rattle.remote_port.specs.Texts.{RemoteTexts};

    ghost Value = { RemoteView };

    ghost view = { λ p. record {
      talk = talk_of p.talk;
      link = p.link;
      origin = record { source = S.source_view p.from_at_first.value; sink = K.sink_view p.to_at_first.value };
    } };

    ghost invariant = { λ p. RemoteTexts record {
      talk = talk_of p.talk;
      link = p.link;
      origin = record { source = S.source_view p.from_at_first.value; sink = K.sink_view p.to_at_first.value };
    } };
}

impl<S: Source, K: Sink> RemotePort<S, K> {
    /// A port of which nothing was asked, over the bytes that come from a server and those that go to it. Takes no
    /// memory.
    pub fn new(alloc: Global, from: S, to: K) -> RemotePort<S, K>
        ensures { result ≡ record {
          talk = record { seen = []; standing = New; refused = false; asks = 0; odd = 0 };
          link = record {
            reader = record { pending = []; room = 2 ^ 40 };
            source = S.source_view from;
            sink = K.sink_view to;
          };
          origin = record { source = S.source_view from; sink = K.sink_view to };
        } }
    {
        let from_at_first = Snapshot::of(&from);
        let to_at_first = Snapshot::of(&to);
        RemotePort {
            talk: Talk::new(alloc),
            link: Link::new(from, to),
            from_at_first,
            to_at_first,
        }
    }

    /// Both ends. What was given to the one and taken from the other are the lines of the port's entries.
    pub fn into_ends(self) -> (S, K)
        ensures source { S.source_view result.0 ≡ self.link.source }
        ensures sink { K.sink_view result.1 ≡ self.link.sink }
        ensures texts { RemoteTexts self }
    {
        let RemotePort { link, .. } = self;
        link.into_ends()
    }
}

impl<S: Source, K: Sink> AuthPort for RemotePort<S, K> {
    type Origin = RemoteOrigin<S, K>;

    ghost port = { remote_port };

    fn ask(&mut self, sid: u64, at: u64, request: Request) -> Result<Reply, PortFault>
        ensures asks { Asks result sid at request (remote_port self.old) (remote_port self.new) }
        ensures answer { AsksRemote result sid at request self.old self.new }
        ensures texts { RemoteTexts self.new }
    {
        converse(&mut self.talk, &mut self.link, sid, at, request)
    }
}
