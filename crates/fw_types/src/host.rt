ghost use Rattle.std.specs.Prelude.{◌≡◌};
ghost use Rattle.fw_types.specs.Host.{host_of, host_text};

use crate::HostName;
use crate::bytes::append;
use crate::quad::{dotted_quad, read_quad};
use arrayvec::ArrayVec;

/// A host: an IPv4 address or a name.
#[derive(Drop)]
pub enum Host {
    Addr([u8; 4]),
    Name(HostName),
}

impl Host {
    /// The host that the text is: an address where it is a dotted quad, else a name, or nothing where it is neither.
    pub fn read(text: &[u8]) -> Option<Host>
        ensures { result ≡ host_of text.now }
    {
        match read_quad(text) {
            Some(addr) => Some(Host::Addr(addr)),
            None => HostName::read(text).map(Host::Name),
        }
    }

    /// An equal host.
    pub fn twin(&self) -> Host
        ensures { result ≡ self.now }
    {
        match self {
            Host::Addr(addr) => Host::Addr(*addr),
            Host::Name(name) => Host::Name(name.twin()),
        }
    }

    /// Sets `out` to the dotted quad or the name.
    pub fn write(&self, out: &mut ArrayVec<u8, 255>)
        ensures { out.new.items ≡ host_text self.now }
    {
        out.clear();
        match self {
            Host::Addr(addr) => append(out, dotted_quad(*addr).as_slice()),
            Host::Name(name) => append(out, name.text()),
        }
    }
}
