//! What came of all that a port was asked.
ghost use Rattle.std.specs.Prelude.{◌≡◌};

use crate::port::RemotePort;
use fw_outside::{Sink, Source};

impl<S: Source, K: Sink> RemotePort<S, K> {
    /// Whether a request was refused since no more entries fit at the server.
    pub fn refused(&self) -> bool
        ensures { result ≡ self.now.talk.refused }
    {
        self.talk.refused
    }

    /// How often it answered that something strange came.
    pub fn odd(&self) -> u64
        ensures { result ≡ self.now.talk.odd }
    {
        self.talk.odd
    }
}
