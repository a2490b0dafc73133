//! The log's line of a verdict.
ghost use Rattle.std.specs.Prelude.{◌≡◌, ◌+◌, ◌≤◌, ◌++◌, length};
ghost use Rattle.arrayvec.specs.ArrayVec.{array_vec_len};
ghost use Rattle.fw_types.specs.Peer.{peer_text};
ghost use Rattle.gate_rules.specs.Service.{service_text};
ghost use Rattle.client_service.specs.Decision.{decision_text, verdict_line, verdict_word};

use arrayvec::ArrayVec;
use fw_types::{Peer, append, append_u32};
use gate_rules::{Service, Verdict};

/// A line of the log.
pub type LogLine = ArrayVec<u8, 512>;

/// The word of a verdict.
pub fn verdict_word(verdict: Verdict) -> &'static [u8]
    ensures word { result.now ≡ verdict_word verdict }
    ensures short { length result.now ≤ 6 }
{
    match verdict {
        Verdict::Permit { .. } => b"permit",
        Verdict::Deny { .. } => b"deny",
    }
}

/// The number of the line that decided.
pub fn verdict_line(verdict: Verdict) -> u32
    ensures { result ≡ verdict_line verdict }
{
    match verdict {
        Verdict::Permit { line } => line,
        Verdict::Deny { line } => line,
    }
}

pub(crate) fn append_service(out: &mut LogLine, service: &Service)
    requires { array_vec_len out.old ≤ 441 }
    ensures items { out.new.items ≡ out.old.items ++ service_text service.now }
    ensures room { array_vec_len out.new ≤ array_vec_len out.old + 71 }
{
    let mut text = ArrayVec::new();
    service.write(&mut text);
    append(out, text.as_slice());
}

pub(crate) fn append_peer(out: &mut LogLine, peer: &Peer)
    requires { array_vec_len out.old ≤ 224 }
    ensures items { out.new.items ≡ out.old.items ++ peer_text peer.now }
    ensures room { array_vec_len out.new ≤ array_vec_len out.old + 288 }
{
    let mut text = ArrayVec::new();
    peer.write(&mut text);
    append(out, text.as_slice());
}

/// The log's line of a verdict.
pub fn decision_line(verdict: Verdict, service: &Service, peer: &Peer) -> LogLine
    ensures { result.items ≡ decision_text verdict service.now peer.now }
{
    let mut out = ArrayVec::new();
    append(&mut out, verdict_word(verdict));
    append(&mut out, b" ");
    append_service(&mut out, service);
    append(&mut out, b" ");
    append_peer(&mut out, peer);
    append(&mut out, b" line ");
    append_u32(&mut out, verdict_line(verdict));
    append(&mut out, b"\n");
    out
}
