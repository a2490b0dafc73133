//! What a line asks for at the prompt of commands.
ghost use Rattle.std.specs.Prelude.{◌≡◌};
ghost use Rattle.std.specs.Str.{str_eq_ignore_ascii_case};
ghost use Rattle.authsrv_lines.specs.Words.{has_none, one_or_two, words};
ghost use Rattle.tn_gate.specs.Command.{alone, by_word, command_of, connect_of, is_connect, is_help, is_quit};

use authsrv_lines::{has_no_word, next_word, one_or_two_words};
use fw_types::{Dest, Host, read_port};

/// What a line asks for.
#[derive(Drop)]
pub enum Command {
    /// Nothing: there is no word in it.
    Nothing,
    /// A link to this destination.
    Connect(Dest),
    /// The end.
    Quit,
    /// A word on what may be asked for.
    Help,
    /// Something that no command is.
    Unknown,
}

fn is(word: &[u8], text: &[u8]) -> bool
    ensures { result ≡ str_eq_ignore_ascii_case word.now text.now }
{
    word.eq_ignore_ascii_case(text)
}

fn is_connect(word: &[u8]) -> bool
    ensures { result ≡ is_connect word.now }
{
    is(word, b"c") || is(word, b"connect")
}

fn is_quit(word: &[u8]) -> bool
    ensures { result ≡ is_quit word.now }
{
    is(word, b"q") || is(word, b"quit") || is(word, b"exit")
}

fn is_help(word: &[u8]) -> bool
    ensures { result ≡ is_help word.now }
{
    is(word, b"help") || is(word, b"?")
}

// A link to a host, at a port or at that of Telnet.
fn read_connect(rest: &[u8]) -> Command
    ensures { result ≡ connect_of (one_or_two (words rest.now)) }
{
    let Some((host, port)) = one_or_two_words(rest) else {
        return Command::Unknown;
    };
    let port = match port {
        Some(text) => read_port(text),
        None => Some(23),
    };
    match (Host::read(host), port) {
        (Some(host), Some(port)) => Command::Connect(Dest { host, port }),
        _ => Command::Unknown,
    }
}

// A command that no word follows.
fn read_alone(command: Command, rest: &[u8]) -> Command
    ensures { result ≡ alone command (has_none (words rest.now)) }
{
    if has_no_word(rest) {
        command
    } else {
        Command::Unknown
    }
}

fn by_word(word: &[u8], rest: &[u8]) -> Command
    ensures { result ≡ by_word word.now (words rest.now) }
{
    if is_connect(word) {
        read_connect(rest)
    } else if is_quit(word) {
        read_alone(Command::Quit, rest)
    } else if is_help(word) {
        read_alone(Command::Help, rest)
    } else {
        Command::Unknown
    }
}

/// What the line, without its end, asks for: `c` or `connect` with a host and perhaps a port, `q`, `quit` or `exit`, `help`
/// or `?`, in any case; nothing where it has no word. Whatever else stands there is unknown.
#[tactic(auto, unfolding(crate::specs::Command::command_of))]
pub fn read_command(line: &[u8]) -> Command
    ensures { result ≡ command_of line.now }
{
    match next_word(line) {
        Some((word, rest)) => by_word(word, rest),
        None => Command::Nothing,
    }
}
