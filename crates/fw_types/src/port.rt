ghost use Rattle.std.specs.Prelude.{◌≡◌};
ghost use Rattle.fw_types.specs.Port.{named_port, numbered_port, port_of};

use crate::number::{in_range, read_number};

fn named_port(text: &[u8]) -> Option<u16>
    ensures { result ≡ named_port text.now }
{
    if text == b"ftp".as_slice() {
        return Some(21);
    }
    if text == b"telnet".as_slice() {
        return Some(23);
    }
    if text == b"smtp".as_slice() {
        return Some(25);
    }
    if text == b"finger".as_slice() {
        return Some(79);
    }
    if text == b"http".as_slice() {
        return Some(80);
    }
    if text == b"pop3".as_slice() {
        return Some(110);
    }
    if text == b"nntp".as_slice() {
        return Some(119);
    }
    if text == b"login".as_slice() {
        return Some(513);
    }
    None
}

/// The port that a decimal number from 1 to 65,535 is, or nothing for other texts.
pub fn read_numbered_port(text: &[u8]) -> Option<u16>
    ensures { result ≡ numbered_port text.now }
{
    match in_range(1, 65535, read_number(text)) {
        Some(number) => Some(number as u16),
        None => None,
    }
}

/// The port that a text is: a decimal number from 1 to 65,535, or one of the names `ftp`, `telnet`, `smtp`, `finger`,
/// `http`, `pop3`, `nntp` and `login`. Nothing for other texts.
pub fn read_port(text: &[u8]) -> Option<u16>
    ensures { result ≡ port_of text.now }
{
    match named_port(text) {
        Some(port) => Some(port),
        None => read_numbered_port(text),
    }
}
