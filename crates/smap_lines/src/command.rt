ghost use Rattle.std.specs.Prelude.{◌≡◌, take, drop, option_map};
ghost use Rattle.smap_lines.specs.Command.{behind_keyword, mail_command_of, command_with, seen};

use crate::blank::behind_blanks;
use crate::verb::{Verb, word_len};

/// What a line asks for (RFC 821, section 4.1).
#[derive(Clone, Copy, Debug, PartialEq, Eq)]
pub enum MailCommand<'a> {
    /// HELO, and what follows the blanks behind it: nothing where no word does.
    Helo { rest: &'a [u8] },
    /// MAIL, and what follows one space and `FROM:`, where these follow the verb.
    Mail { path_text: Option<&'a [u8]> },
    /// RCPT, and what follows one space and `TO:`, where these follow the verb.
    Rcpt { path_text: Option<&'a [u8]> },
    /// DATA, whatever follows it, and so are the next four.
    Data,
    Rset,
    Noop,
    Quit,
    Help,
    /// VRFY, EXPN, SEND, SOML, SAML and TURN.
    NotImplemented,
    /// Any other word, or more than 512 bytes.
    Unknown,
}

// The bytes up to a count, and the others.
fn halves(text: &[u8], count: usize) -> (&[u8], &[u8])
    ensures front { result.0.now ≡ take count text.now }
    ensures rest { result.1.now ≡ drop count text.now }
{
    text.split_at(count.min(text.len()))
}

// What follows the keyword, in any case, at the front of a text.
fn behind_keyword<'a>(keyword: &[u8], text: &'a [u8]) -> Option<&'a [u8]>
    ensures { option_map (λ r. r.now) result ≡ behind_keyword keyword.now text.now }
{
    let (front, rest) = halves(text, keyword.len());
    if front.eq_ignore_ascii_case(keyword) {
        Some(rest)
    } else {
        None
    }
}

// What the verb asks for with what follows it.
fn command_with(verb: Verb, rest: &[u8]) -> MailCommand<'_>
    ensures { seen result ≡ command_with verb rest.now }
{
    match verb {
        Verb::Helo => MailCommand::Helo {
            rest: behind_blanks(rest),
        },
        Verb::Mail => MailCommand::Mail {
            path_text: behind_keyword(b" FROM:", rest),
        },
        Verb::Rcpt => MailCommand::Rcpt {
            path_text: behind_keyword(b" TO:", rest),
        },
        Verb::Data => MailCommand::Data,
        Verb::Rset => MailCommand::Rset,
        Verb::Noop => MailCommand::Noop,
        Verb::Quit => MailCommand::Quit,
        Verb::Help => MailCommand::Help,
        Verb::NotImplemented => MailCommand::NotImplemented,
        Verb::Unknown => MailCommand::Unknown,
    }
}

/// What a line, without its end, asks for. The verb ends at the first blank and is read in any case.
pub fn read_mail_command(line: &[u8]) -> MailCommand<'_>
    ensures { seen result ≡ mail_command_of line.now }
{
    if line.len() > 512 {
        return MailCommand::Unknown;
    }
    let (word, rest) = line.split_at(word_len(line));
    command_with(Verb::of(word), rest)
}
