//! The log's line of a connect.
ghost use Rattle.std.specs.Prelude.{◌≡◌, ◌+◌, ◌≤◌, ◌++◌};
ghost use Rattle.arrayvec.specs.ArrayVec.{array_vec_len};
ghost use Rattle.fw_types.specs.Host.{host_text};
ghost use Rattle.fw_types.specs.Peer.{peer_text};
ghost use Rattle.plug_gate.specs.Dialogue.{connect_text};

use arrayvec::ArrayVec;
use fw_types::{Dest, Host, Peer, append, append_u32};

/// A line that tells of a destination.
pub type ConnectLine = ArrayVec<u8, 640>;

fn append_peer(out: &mut ConnectLine, peer: &Peer)
    requires { array_vec_len out.old ≤ 352 }
    ensures items { out.new.items ≡ out.old.items ++ peer_text peer.now }
    ensures room { array_vec_len out.new ≤ array_vec_len out.old + 288 }
{
    let mut text = ArrayVec::new();
    peer.write(&mut text);
    append(out, text.as_slice());
}

fn append_host(out: &mut ConnectLine, host: &Host)
    requires { array_vec_len out.old ≤ 385 }
    ensures items { out.new.items ≡ out.old.items ++ host_text host.now }
    ensures room { array_vec_len out.new ≤ array_vec_len out.old + 255 }
{
    let mut text = ArrayVec::new();
    host.write(&mut text);
    append(out, text.as_slice());
}

/// The log's line of a client at this port of the gateway who is linked to this destination, as the line with this number
/// permits.
pub fn connect_line(port: u16, peer: &Peer, dest: &Dest, line: u32) -> ConnectLine
    ensures { result.items ≡ connect_text port peer.now dest.now line }
{
    let mut out = ArrayVec::new();
    append(&mut out, b"connect plug-gw:");
    append_u32(&mut out, u32::from(port));
    append(&mut out, b" ");
    append_peer(&mut out, peer);
    append(&mut out, b" to ");
    append_host(&mut out, &dest.host);
    append(&mut out, b" ");
    append_u32(&mut out, u32::from(dest.port));
    append(&mut out, b" line ");
    append_u32(&mut out, line);
    append(&mut out, b"\n");
    out
}
