ghost use Rattle.std.specs.Prelude.{◌≡◌, ◌+◌, ◌≤◌, ◌++◌, length};
ghost use Rattle.arrayvec.specs.ArrayVec.{array_vec_len};
ghost use Rattle.fw_types.specs.Peer.{addr_text, name_text, peer_text};

use crate::HostName;
use crate::bytes::{append, append_byte};
use crate::quad::dotted_quad;
use arrayvec::ArrayVec;

/// Who is at the other end of a connection, as far as it is known.
#[derive(Drop)]
pub struct Peer {
    pub addr: Option<[u8; 4]>,
    pub name: Option<HostName>,
}

fn twin_of_name(name: &Option<HostName>) -> Option<HostName>
    ensures { result ≡ name.now }
{
    match name {
        Some(name) => Some(name.twin()),
        None => None,
    }
}

fn append_name(out: &mut ArrayVec<u8, 288>, name: &Option<HostName>)
    requires { array_vec_len out.old ≤ 0 }
    ensures items { out.new.items ≡ out.old.items ++ name_text name.now }
    ensures room { array_vec_len out.new ≤ 255 }
{
    match name {
        Some(name) => append(out, name.text()),
        None => append(out, b"unknown"),
    }
}

fn append_addr(out: &mut ArrayVec<u8, 288>, addr: &Option<[u8; 4]>)
    requires { array_vec_len out.old ≤ 256 }
    ensures { out.new.items ≡ out.old.items ++ addr_text addr.now }
{
    match addr {
        Some(addr) => append(out, dotted_quad(*addr).as_slice()),
        None => append(out, b"unknown"),
    }
}

impl Peer {
    /// An equal peer.
    pub fn twin(&self) -> Peer
        ensures { result ≡ self.now }
    {
        Peer {
            addr: self.addr,
            name: twin_of_name(&self.name),
        }
    }

    /// Sets `out` to the name or `unknown`, a slash, and the dotted address or `unknown`.
    pub fn write(&self, out: &mut ArrayVec<u8, 288>)
        ensures { out.new.items ≡ peer_text self.now }
    {
        out.clear();
        append_name(out, &self.name);
        append_byte(out, b'/');
        append_addr(out, &self.addr);
    }
}
