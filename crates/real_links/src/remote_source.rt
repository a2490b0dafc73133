ghost use Rattle.std.specs.Prelude.{◌≡◌, ◌<◌, length};
ghost use Rattle.std.specs.Io.Buffered.{reader_remaining};
ghost use Rattle.std.specs.Result.{IsErr};
ghost use Rattle.fw_outside.specs.SourceView.{Takes, waiting};
ghost use Rattle.real_links.specs.Links.{HandsOn};
ghost use Rattle.real_links.specs.Remote.{IfSourceDown, IfSourceUp, remote_source_view};

use crate::LinkSource;
use crate::missed::miss;
use fw_outside::{Failed, Got, Source};
use std::io::Read;
use std::net::OpenStream;
use std::os::fd::AsRawFd;

/// What comes over a link, if it came up. Else each take fails, and is counted.
#[derive(Drop)]
pub enum RemoteSource<S> {
    Up(LinkSource<S>),
    Down { faults: u64, waits: u32 },
}

impl<S: Read + OpenStream + AsRawFd + Drop> Source for RemoteSource<S> {
    ghost source_view = { remote_source_view };

    fn take(&mut self, buf: &mut [u8]) -> Result<Got, Failed>
        requires { 0 < length buf.old }
        ensures takes { Takes result buf.new (remote_source_view self.old) (remote_source_view self.new) }
        ensures down { IfSourceDown self.old (IsErr result) }
        ensures bytes { IfSourceUp (λ old new. HandsOn result buf.new (reader_remaining S.remaining old.socket)
            (reader_remaining S.remaining new.socket)) self.old self.new }
        ensures to { IfSourceUp (λ old new. new.to ≡ old.to) self.old self.new }
    {
        match self {
            RemoteSource::Up(link) => link.take(buf),
            RemoteSource::Down { faults, .. } => Err(miss(faults)),
        }
    }

    fn patience(&mut self, seconds: u32)
        ensures waits { remote_source_view self.new ≡ waiting (remote_source_view self.old) seconds }
        ensures socket { IfSourceUp (λ old new. new.socket ≡ old.socket) self.old self.new }
        ensures to { IfSourceUp (λ old new. new.to ≡ old.to) self.old self.new }
    {
        match self {
            RemoteSource::Up(link) => link.patience(seconds),
            RemoteSource::Down { waits, .. } => *waits = seconds,
        }
    }
}
