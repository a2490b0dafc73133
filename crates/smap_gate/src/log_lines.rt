//! The line of the log.
ghost use Rattle.std.specs.Prelude.{◌≡◌, ◌≤◌, ◌++◌, codes};
ghost use Rattle.std.specs.Fmt.{decimal};
ghost use Rattle.arrayvec.specs.ArrayVec.{array_vec_len};
ghost use Rattle.fw_types.specs.Peer.{peer_text};
ghost use Rattle.smap_gate.specs.LogLines.{mail_line};

use arrayvec::ArrayVec;
use fw_types::{Peer, append, append_u32};

/// A line of the log.
pub(crate) type LogLine = ArrayVec<u8, 400>;

// Who sent a message.
fn whose(peer: &Peer) -> LogLine
    ensures items { result.items ≡ codes "mail smap " ++ peer_text peer.now }
    ensures room { array_vec_len result ≤ 298 }
{
    let mut text = ArrayVec::new();
    peer.write(&mut text);
    let mut out = ArrayVec::new();
    append(&mut out, b"mail smap ");
    append(&mut out, text.as_slice());
    out
}

/// A message of this client was kept in a slot, for so many recipients, with so many bytes.
pub(crate) fn mail_line(peer: &Peer, slot: u32, rcpts: u32, bytes: u32) -> LogLine
    ensures { result.items ≡ mail_line peer.now slot rcpts bytes }
{
    let mut out = whose(peer);
    append(&mut out, b" slot ");
    append_u32(&mut out, slot);
    append(&mut out, b" recipients ");
    append_u32(&mut out, rcpts);
    append(&mut out, b" bytes ");
    append_u32(&mut out, bytes);
    append(&mut out, b"\n");
    out
}
