//! The two ends of a link to a server.
ghost use Rattle.std.specs.Prelude.{◌≡◌, ◌^◌, []};
ghost use Rattle.fw_outside.specs.LineReaderView.{Listens};
ghost use Rattle.fw_outside.specs.SinkView.{Gives};
ghost use Rattle.remote_port.specs.Link.{Exchanges};

use fw_outside::{Failed, Heard, LineReader, Sink, Source};
use std::marker::Model;

// No more bytes than these are taken from a server.
const MOST_TAKEN: u64 = 1 << 40;

/// What a server says and what it is told, and the buffer after which it is heard.
#[derive(Drop)]
pub(crate) struct Link<S: Source, K: Sink> {
    from: S,
    to: K,
    reader: LineReader,
}

impl<S: Source, K: Sink> Model for Link<S, K> {
    ghost use Rattle.remote_port.specs.Link.{LinkView};

    ghost Value = { LinkView };

    ghost view = { λ l. record { reader = l.reader; source = S.source_view l.from; sink = K.sink_view l.to } };
}

impl<S: Source, K: Sink> Link<S, K> {
    /// A link of which nothing was heard yet.
    pub(crate) fn new(from: S, to: K) -> Link<S, K>
        ensures { result ≡ record {
          reader = record { pending = []; room = 2 ^ 40 };
          source = S.source_view from;
          sink = K.sink_view to;
        } }
    {
        Link {
            from,
            to,
            reader: LineReader::new(MOST_TAKEN),
        }
    }

    /// Both ends.
    pub(crate) fn into_ends(self) -> (S, K)
        ensures source { S.source_view result.0 ≡ self.source }
        ensures sink { K.sink_view result.1 ≡ self.sink }
    {
        let Link { from, to, .. } = self;
        (from, to)
    }

    // Gives a text, if it isn't empty.
    fn give(&mut self, text: &[u8]) -> Result<(), Failed>
        ensures gives { Gives result text.now self.old.sink self.new.sink }
        ensures reader { self.new.reader ≡ self.old.reader }
        ensures source { self.new.source ≡ self.old.source }
    {
        if text.is_empty() {
            return Ok(());
        }
        self.to.give(text)
    }

    // The next line.
    fn hear(&mut self) -> Heard
        ensures listens { Listens result self.old.reader self.new.reader self.old.source self.new.source }
        ensures sink { self.new.sink ≡ self.old.sink }
    {
        self.reader.next(&mut self.from)
    }

    /// Gives a text, and hears the next line.
    pub(crate) fn exchange(&mut self, text: &[u8]) -> Result<Heard, Failed>
        ensures { Exchanges result text.now self.old self.new }
    {
        match self.give(text) {
            Ok(()) => Ok(self.hear()),
            Err(Failed) => Err(Failed),
        }
    }
}
