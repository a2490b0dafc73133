//! The codes of a reply's lines (RFC 959, 4.2).
ghost use Rattle.std.specs.Prelude.{◌≡◌, IsTrue};
ghost use Rattle.std.specs.Char.{is_ascii_digit};
ghost use Rattle.std.specs.List.{list_all};
ghost use Rattle.ftp_lines.specs.Reply.{code_of, ending_code, front_code, has_code, is_closing, opening_code, told_code};

use fw_types::read_number;

fn all_digits(text: &[u8]) -> bool
    ensures { result ≡ list_all is_ascii_digit text.now }
{
    text.iter().all(|byte| byte.is_ascii_digit())
}

// Whether the line begins with three digits.
fn has_code(line: &[u8]) -> bool
    ensures { result ≡ has_code line.now }
{
    line.len() >= 3 && all_digits(&line[..3])
}

/// The number of the three digits with which the line begins.
pub(crate) fn code_of(line: &[u8]) -> u16
    requires { IsTrue (has_code line.now) }
    ensures { result ≡ code_of line.now }
{
    match read_number(&line[..3]) {
        Some(code) => code as u16,
        None => unreachable!(),
    }
}

/// Whether the line is three digits and then a space or its end.
pub(crate) fn is_closing(line: &[u8]) -> bool
    ensures { result ≡ is_closing line.now }
{
    has_code(line) && (line.len() == 3 || line[3] == b' ')
}

/// The code of a line of three digits and then a hyphen.
pub(crate) fn opening_code(line: &[u8]) -> Option<u16>
    ensures { result ≡ opening_code line.now }
{
    if has_code(line) && line.len() > 3 && line[3] == b'-' {
        return Some(code_of(line));
    }
    None
}

// The code of a line of three digits and then a space, its end or a hyphen.
fn told_code(line: &[u8]) -> Option<u16>
    ensures { result ≡ told_code line.now }
{
    if is_closing(line) {
        return Some(code_of(line));
    }
    opening_code(line)
}

/// The code that the first bytes of a line tell, however it goes on.
pub(crate) fn front_code(front: &[u8]) -> Option<u16>
    ensures { result ≡ front_code front.now }
{
    if front.len() < 4 {
        return None;
    }
    told_code(front)
}

/// The code of a reply whose first line doesn't say that more follow, if the line with these first bytes ends it: three
/// digits and then a space. Nothing where fewer than four bytes have come.
pub fn ending_code(front: &[u8]) -> Option<u16>
    ensures { result ≡ ending_code front.now }
{
    if front.len() >= 4 && is_closing(front) {
        return Some(code_of(front));
    }
    None
}
