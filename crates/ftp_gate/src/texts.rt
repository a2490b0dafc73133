//! What the client is told, and what the server is given in its place.
ghost use Rattle.std.specs.Prelude.{◌≡◌, ◌≤◌, ◌++◌, length};
ghost use Rattle.ftp_gate.specs.Texts.{challenge_asked, dest_denied, log_in_first, passed_line, passive_mode, user_text, verb_denied};

use arrayvec::ArrayVec;
use auth_records::Seed;
use ftp_lines::write_six;
use fw_types::{append, append_u32, copy_of};
use otp_md5::challenge_text;

/// Words for the client.
pub(crate) type Words = ArrayVec<u8, 96>;

/// A line for the server.
pub(crate) type ServerLine = ArrayVec<u8, 520>;

/// A one-time password is asked for.
pub(crate) fn challenge_asked(number: u32, word_seed: &Seed) -> Words
    ensures { result.items ≡ challenge_asked number word_seed.now }
{
    let mut text = ArrayVec::new();
    challenge_text(number, word_seed, &mut text);
    let mut out = copy_of(b"331 ");
    append(&mut out, text.as_slice());
    append(&mut out, b"\r\n");
    out
}

/// A verb is denied by the line with this number.
pub(crate) fn verb_denied(line: u32) -> Words
    ensures { result.items ≡ verb_denied line }
{
    let mut out = copy_of(b"500 Denied (line ");
    append_u32(&mut out, line);
    append(&mut out, b")\r\n");
    out
}

/// A login is asked for by the line with this number.
pub(crate) fn log_in_first(line: u32) -> Words
    ensures { result.items ≡ log_in_first line }
{
    let mut out = copy_of(b"530 Log in first (line ");
    append_u32(&mut out, line);
    append(&mut out, b")\r\n");
    out
}

/// A destination is denied by the line with this number.
pub(crate) fn dest_denied(line: u32) -> Words
    ensures { result.items ≡ dest_denied line }
{
    let mut out = copy_of(b"530 Denied (line ");
    append_u32(&mut out, line);
    append(&mut out, b")\r\n");
    out
}

/// A door stands at this address and port.
pub(crate) fn passive_mode(addr: [u8; 4], port: u16) -> Words
    ensures { result.items ≡ passive_mode addr port }
{
    let mut six = ArrayVec::new();
    write_six(addr, port, &mut six);
    let mut out = copy_of(b"227 Entering passive mode (");
    append(&mut out, six.as_slice());
    append(&mut out, b")\r\n");
    out
}

/// A line of the client, with the end that the server is given.
pub(crate) fn passed_line(line: &[u8]) -> ServerLine
    requires { length line.now ≤ 518 }
    ensures { result.items ≡ passed_line line.now }
{
    let mut out = copy_of(line);
    append(&mut out, b"\r\n");
    out
}

/// The user that is named to the server.
pub(crate) fn user_text(name: &[u8]) -> ServerLine
    requires { length name.now ≤ 512 }
    ensures { result.items ≡ user_text name.now }
{
    let mut out = copy_of(b"USER ");
    append(&mut out, name);
    append(&mut out, b"\r\n");
    out
}
