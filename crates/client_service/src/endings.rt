//! How the end of a session is told.
ghost use Rattle.std.specs.Prelude.{◌≡◌, ◌≤◌, length, IfSome, MatchOption, None, Some};
ghost use Rattle.std.specs.Option.{option_copied, option_map};
ghost use Rattle.client_service.specs.Endings.{NotedIf, denied_text, denied_words, end_text, ending_line, ending_word, refusal_reply};
ghost use Rattle.tn_gate.specs.Texts.{refusal};

use crate::decision::{LogLine, append_peer, append_service};
use arrayvec::ArrayVec;
use fw_outside::Sink;
use fw_types::{Ending, Peer, append, append_u32};
use gate_rules::Service;

fn ending_word(ending: Ending) -> Option<&'static [u8]>
    ensures word { option_copied result ≡ ending_word ending }
    ensures short { IfSome result (λ word. length word.now ≤ 7) }
{
    match ending {
        Ending::Done => Some(b"done"),
        Ending::Denied { .. } => None,
        Ending::ClientFault => Some(b"client"),
        Ending::ServerFault => Some(b"server"),
        Ending::LogFault => None,
        Ending::AuthFault => Some(b"auth"),
        Ending::Idle => Some(b"idle"),
        Ending::NoRoute => Some(b"noroute"),
        Ending::Spent => Some(b"spent"),
        Ending::NoMemory => Some(b"memory"),
    }
}

fn end_text(service: &Service, peer: &Peer, word: &[u8]) -> LogLine
    requires { length word.now ≤ 7 }
    ensures { result.items ≡ end_text service.now peer.now word.now }
{
    let mut out = ArrayVec::new();
    append(&mut out, b"end ");
    append_service(&mut out, service);
    append(&mut out, b" ");
    append_peer(&mut out, peer);
    append(&mut out, b" ");
    append(&mut out, word);
    append(&mut out, b"\n");
    out
}

/// The log's line of an ending. None for a denial, which was logged by its verdict, and where the log failed.
pub fn ending_line(service: &Service, peer: &Peer, ending: Ending) -> Option<LogLine>
    ensures { MatchOption result (ending_line service.now peer.now ending ≡ None) (λ line.
        ending_line service.now peer.now ending ≡ Some line.items) }
{
    match ending_word(ending) {
        Some(word) => Some(end_text(service, peer, word)),
        None => None,
    }
}

/// Gives the log the line of an ending, where it has one.
pub(crate) fn note_ending<G: Sink>(service: &Service, peer: &Peer, ending: Ending, logs: &mut G)
    ensures { NotedIf (ending_line service.now peer.now ending) (G.sink_view logs.old) (G.sink_view logs.new) }
{
    if let Some(line) = ending_line(service, peer, ending) {
        let _ = logs.give(line.as_slice());
    }
}

/// The words of `authsrv` to a client that the line of this number denies; 0 where no line fits.
pub fn denied_line(line: u32) -> LogLine
    ensures { result.items ≡ denied_text line }
{
    let mut out = ArrayVec::new();
    append(&mut out, b"denied line ");
    append_u32(&mut out, line);
    append(&mut out, b"\n");
    out
}

// Those of the Telnet gateway.
fn refusal(line: u32) -> LogLine
    ensures { result.items ≡ refusal line }
{
    let mut out = ArrayVec::new();
    append(&mut out, b"Denied (line ");
    append_u32(&mut out, line);
    append(&mut out, b")\r\n");
    out
}

// Those of the FTP gateway and of the mail gateway, which are a reply with its code.
fn refusal_reply(line: u32) -> LogLine
    ensures { result.items ≡ refusal_reply line }
{
    let mut out = ArrayVec::new();
    append(&mut out, b"421 Denied (line ");
    append_u32(&mut out, line);
    append(&mut out, b")\r\n");
    out
}

/// The words to a client of a service that the line of this number denies. None for the plug, and for a service whose clients
/// aren't served.
pub fn denied_words(service: &Service, line: u32) -> Option<LogLine>
    ensures { option_map (λ words. words.items) result ≡ denied_words service.now line }
{
    match service {
        Service::Authsrv => Some(denied_line(line)),
        Service::TnGw => Some(refusal(line)),
        Service::FtpGw => Some(refusal_reply(line)),
        Service::Smap => Some(refusal_reply(line)),
        Service::PlugGw(_) => None,
        _ => None,
    }
}
