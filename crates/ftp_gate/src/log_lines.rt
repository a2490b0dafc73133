//! The lines of the log.
ghost use Rattle.std.specs.Prelude.{◌≡◌, ◌+◌, ◌≤◌, ◌++◌, length, codes};
ghost use Rattle.arrayvec.specs.ArrayVec.{array_vec_len};
ghost use Rattle.authsrv_lines.specs.Reply.{cause};
ghost use Rattle.fw_types.specs.Host.{host_text};
ghost use Rattle.fw_types.specs.Peer.{peer_text};
ghost use Rattle.ftp_gate.specs.LogLines.{blocked_line, by_line, command_line, connect_line, fail_line, login_line, refuse_line, toward, whose};

use crate::FtpScript;
use arrayvec::ArrayVec;
use auth_events::Denial;
use authsrv_lines::denial_text;
use fw_types::{Dest, Host, Name, Peer, Verb, append, append_u32};

/// A line of the log.
pub(crate) type LogLine = ArrayVec<u8, 1024>;

fn append_peer(out: &mut LogLine, peer: &Peer)
    requires { array_vec_len out.old ≤ 15 }
    ensures items { out.new.items ≡ out.old.items ++ peer_text peer.now }
    ensures room { array_vec_len out.new ≤ 303 }
{
    let mut text = ArrayVec::new();
    peer.write(&mut text);
    append(out, text.as_slice());
}

fn append_host(out: &mut LogLine, host: &Host)
    requires { array_vec_len out.old ≤ 307 }
    ensures items { out.new.items ≡ out.old.items ++ host_text host.now }
    ensures room { array_vec_len out.new ≤ 562 }
{
    let mut text = ArrayVec::new();
    host.write(&mut text);
    append(out, text.as_slice());
}

fn append_line(out: &mut LogLine, line: u32)
    requires { array_vec_len out.old ≤ 574 }
    ensures items { out.new.items ≡ out.old.items ++ by_line line }
    ensures room { array_vec_len out.new ≤ array_vec_len out.old + 16 }
{
    append(out, b" line ");
    append_u32(out, line);
}

fn append_verb(out: &mut LogLine, verb: &Verb)
    requires { array_vec_len out.old ≤ 304 }
    ensures items { out.new.items ≡ out.old.items ++ verb.now }
    ensures room { array_vec_len out.new ≤ array_vec_len out.old + 16 }
{
    append(out, verb.text());
}

// Why a login was denied.
fn append_cause(out: &mut LogLine, denial: Denial)
    requires { array_vec_len out.old ≤ 358 }
    ensures items { out.new.items ≡ out.old.items ++ cause denial }
    ensures room { array_vec_len out.new ≤ array_vec_len out.old + 505 }
{
    let mut text = ArrayVec::new();
    denial_text(denial, &mut text);
    append(out, &text.as_slice()[7..]);
}

// What happened, and to whom.
fn whose(word: &[u8], script: &FtpScript) -> LogLine
    requires { length word.now ≤ 7 }
    ensures items { result.items ≡ whose word.now script.now }
    ensures room { array_vec_len result ≤ 303 }
{
    let mut out = ArrayVec::new();
    append(&mut out, word);
    append(&mut out, b" ftp-gw ");
    append_peer(&mut out, script.peer);
    out
}

// What happened on the way to a destination, and by which line.
fn toward(word: &[u8], script: &FtpScript, dest: &Dest, line: u32) -> LogLine
    requires { length word.now ≤ 7 }
    ensures { result.items ≡ toward word.now script.now dest.now line }
{
    let mut out = whose(word, script);
    append(&mut out, b" to ");
    append_host(&mut out, &dest.host);
    append(&mut out, b" ");
    append_u32(&mut out, u32::from(dest.port));
    append_line(&mut out, line);
    append(&mut out, b"\n");
    out
}

/// The client is linked to this destination.
pub(crate) fn connect_line(script: &FtpScript, dest: &Dest) -> LogLine
    ensures { result.items ≡ connect_line script.now dest.now }
{
    toward(b"connect", script, dest, script.line)
}

/// The client may not reach this destination, by the line with this number.
pub(crate) fn refuse_line(script: &FtpScript, dest: &Dest, line: u32) -> LogLine
    ensures { result.items ≡ refuse_line script.now dest.now line }
{
    toward(b"refuse", script, dest, line)
}

// Who the client says to be, and which line permits it.
fn user_line(word: &[u8], script: &FtpScript, name: &Name) -> LogLine
    requires { length word.now ≤ 7 }
    ensures items { result.items ≡ whose word.now script.now ++ codes " user " ++ name.now ++ by_line script.now.line }
    ensures room { array_vec_len result ≤ 357 }
{
    let mut out = whose(word, script);
    append(&mut out, b" user ");
    append(&mut out, name.text());
    append_line(&mut out, script.line);
    out
}

/// The client is logged in as this user.
pub(crate) fn login_line(script: &FtpScript, name: &Name) -> LogLine
    ensures { result.items ≡ login_line script.now name.now }
{
    let mut out = user_line(b"login", script, name);
    append(&mut out, b"\n");
    out
}

/// The client isn't logged in as this user, and why.
pub(crate) fn fail_line(script: &FtpScript, name: &Name, denial: Denial) -> LogLine
    ensures { result.items ≡ fail_line script.now name.now denial }
{
    let mut out = user_line(b"fail", script, name);
    append(&mut out, b" ");
    append_cause(&mut out, denial);
    append(&mut out, b"\n");
    out
}

/// This verb was blocked.
pub(crate) fn blocked_line(script: &FtpScript, verb: &Verb) -> LogLine
    ensures { result.items ≡ blocked_line script.now verb.now }
{
    let mut out = whose(b"blocked", script);
    append(&mut out, b" ");
    append_verb(&mut out, verb);
    append_line(&mut out, script.line);
    append(&mut out, b"\n");
    out
}

/// This verb is passed.
pub(crate) fn command_line(script: &FtpScript, verb: &Verb) -> LogLine
    ensures { result.items ≡ command_line script.now verb.now }
{
    let mut out = whose(b"command", script);
    append(&mut out, b" ");
    append_verb(&mut out, verb);
    append(&mut out, b"\n");
    out
}
