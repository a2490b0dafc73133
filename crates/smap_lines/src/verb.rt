//! The verbs of mail (RFC 821, section 4.1).
ghost use Rattle.std.specs.Prelude.{◌≡◌, ◌≤◌, length};
ghost use Rattle.std.specs.List.{position_or_len};
ghost use Rattle.std.specs.Str.{str_eq_ignore_ascii_case};
ghost use Rattle.smap_lines.specs.Blank.{is_blank};
ghost use Rattle.smap_lines.specs.Verb.{asks_for_more, mail_verb_of};

use crate::blank::is_blank;

/// What the first word of a line asks for.
#[derive(Clone, Copy, Debug, PartialEq, Eq)]
pub enum Verb {
    Helo,
    Mail,
    Rcpt,
    Data,
    Rset,
    Noop,
    Quit,
    Help,
    NotImplemented,
    Unknown,
}

fn is(word: &[u8], verb: &[u8]) -> bool
    ensures { result ≡ str_eq_ignore_ascii_case word.now verb.now }
{
    word.eq_ignore_ascii_case(verb)
}

// A verb of the standard that isn't served.
#[tactic(auto, unfolding(crate::specs::Verb::asks_for_more))]
fn asks_for_more(word: &[u8]) -> bool
    ensures { result ≡ asks_for_more word.now }
{
    is(word, b"VRFY")
        || is(word, b"EXPN")
        || is(word, b"SEND")
        || is(word, b"SOML")
        || is(word, b"SAML")
        || is(word, b"TURN")
}

impl Verb {
    /// The verb that the word is, in any case.
    #[tactic(auto, unfolding(crate::specs::Verb::mail_verb_of))]
    pub(crate) fn of(word: &[u8]) -> Verb
        ensures { result ≡ mail_verb_of word.now }
    {
        if is(word, b"HELO") {
            Verb::Helo
        } else if is(word, b"MAIL") {
            Verb::Mail
        } else if is(word, b"RCPT") {
            Verb::Rcpt
        } else if is(word, b"DATA") {
            Verb::Data
        } else if is(word, b"RSET") {
            Verb::Rset
        } else if is(word, b"NOOP") {
            Verb::Noop
        } else if is(word, b"QUIT") {
            Verb::Quit
        } else if is(word, b"HELP") {
            Verb::Help
        } else if asks_for_more(word) {
            Verb::NotImplemented
        } else {
            Verb::Unknown
        }
    }
}

/// How many bytes stand before the first blank.
pub(crate) fn word_len(line: &[u8]) -> usize
    ensures count { result ≡ position_or_len is_blank line.now }
    ensures within { result ≤ length line.now }
{
    line.iter().take_while(|byte| !is_blank(**byte)).count()
}
