//! The first line of a reply (RFC 959, 4.2).
ghost use Rattle.std.specs.Prelude.{◌≡◌};
ghost use Rattle.ftp_lines.specs.Opening.{awaited, closing_code, first_code_by, opening_behind, opening_by};
ghost use Rattle.ftp_lines.specs.Reply.{ends_reply, opening_code};

use crate::code::{code_of, front_code, is_closing, opening_code};

/// What the first line of a reply says of its last one.
#[derive(Clone, Copy)]
pub(crate) enum Opening {
    /// No line has ended yet.
    Unheard,
    /// The last line may have any code.
    Plain,
    /// It has this code.
    Coded(u16),
}

// Whether the line ends a reply that began so.
fn ends_reply(opening: Opening, line: &[u8]) -> bool
    ensures { result ≡ ends_reply (awaited opening) line.now }
{
    match opening {
        Opening::Coded(code) => is_closing(line) && code_of(line) == code,
        Opening::Unheard => is_closing(line),
        Opening::Plain => is_closing(line),
    }
}

/// The code of the reply, where the line ends it.
pub(crate) fn closing_code(opening: Opening, line: &[u8]) -> Option<u16>
    ensures { result ≡ closing_code (awaited opening) line.now }
{
    if ends_reply(opening, line) {
        return Some(code_of(line));
    }
    None
}

fn opening_by(line: &[u8]) -> Opening
    ensures { result ≡ opening_by (opening_code line.now) }
{
    match opening_code(line) {
        Some(code) => Opening::Coded(code),
        None => Opening::Plain,
    }
}

/// The same, once the line has ended and the reply hasn't.
pub(crate) fn behind(opening: Opening, line: &[u8]) -> Opening
    ensures { result ≡ opening_behind opening line.now }
{
    match opening {
        Opening::Unheard => opening_by(line),
        Opening::Plain => Opening::Plain,
        Opening::Coded(code) => Opening::Coded(code),
    }
}

/// The code that the first line tells, of which these bytes have come where it hasn't ended.
pub(crate) fn first_code(opening: Opening, front: &[u8]) -> Option<u16>
    ensures { result ≡ first_code_by opening front.now }
{
    match opening {
        Opening::Unheard => front_code(front),
        Opening::Plain => None,
        Opening::Coded(code) => Some(code),
    }
}
