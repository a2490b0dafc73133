//! Command lines (RFC 959, 4.1 and 5.3).
ghost use Rattle.std.specs.Prelude.{◌≡◌, ◌≤◌, ◌+◌, drop, length, MatchOption, Some, None};
ghost use Rattle.std.specs.List.{list_any, position_or_len};
ghost use Rattle.ftp_lines.specs.Command.{ftp_command_of, is_barred, is_command_text, is_space};

use fw_types::Verb;
use memchr::memchr;

/// A verb, in upper case, and the bytes behind the space that follows it.
#[derive(Drop)]
pub struct Command<'a> {
    pub verb: Verb,
    pub arg: &'a [u8],
}

fn holds_barred(line: &[u8]) -> bool
    ensures { result ≡ list_any is_barred line.now }
{
    line.iter()
        .any(|byte| matches!(*byte, 0 | b'\n' | b'\r' | 255))
}

fn is_command_text(line: &[u8]) -> bool
    ensures { result ≡ is_command_text line.now }
{
    line.len() <= 512 && !holds_barred(line)
}

// The place of the first space, or the line's length.
fn verb_len(line: &[u8]) -> usize
    ensures place { result ≡ position_or_len is_space line.now }
    ensures within { result ≤ length line.now }
{
    match memchr(b' ', line) {
        Some(at) => at,
        None => line.len(),
    }
}

/// The command that a line is, without its end: a verb of 1 to 16 letters, alone or with a space and an argument behind
/// it. Nothing where the line is longer than 512 bytes, has a byte 0, 10, 13 or 255, or doesn't begin with such a verb.
pub fn read_command(line: &[u8]) -> Option<Command<'_>>
    ensures { MatchOption result (ftp_command_of line.now ≡ None) (λ c. ftp_command_of line.now ≡ Some (
      c.verb,
      c.arg.now,
    )) }
{
    if !is_command_text(line) {
        return None;
    }
    let at = verb_len(line);
    let verb = Verb::read(&line[..at])?;
    Some(Command {
        verb,
        arg: behind(line, at),
    })
}

// What stands behind a place, if it is one.
fn behind(line: &[u8], at: usize) -> &[u8]
    ensures { result.now ≡ drop (at + 1) line.now }
{
    if at < line.len() {
        &line[at + 1..]
    } else {
        &[]
    }
}
