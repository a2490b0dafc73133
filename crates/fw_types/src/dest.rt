ghost use Rattle.std.specs.Prelude.{◌≡◌};
ghost use Rattle.fw_types.specs.Dest.{party_at, party_of};

use crate::{Host, Peer};

/// A destination: a host and a port.
#[derive(Drop)]
pub struct Dest {
    pub host: Host,
    pub port: u16,
}

fn party_at(host: &Host) -> Peer
    ensures { result ≡ party_at host.now }
{
    match host {
        Host::Addr(addr) => Peer {
            addr: Some(*addr),
            name: None,
        },
        Host::Name(name) => Peer {
            addr: None,
            name: Some(name.twin()),
        },
    }
}

impl Dest {
    /// The party that patterns are tested against: an address alone, or a name alone.
    pub fn party(&self) -> Peer
        ensures { result ≡ party_of self.now }
    {
        party_at(&self.host)
    }

    /// An equal destination.
    pub fn twin(&self) -> Dest
        ensures { result ≡ self.now }
    {
        Dest {
            host: self.host.twin(),
            port: self.port,
        }
    }
}
