//! Words of a line: what they are, and where the host list ends.
ghost use Rattle.std.specs.Prelude.{◌≡◌, ◌≤◌, ◌+◌, length, position, drop, take, codes};
ghost use Rattle.std.specs.List.{list_any, position_or_len};
ghost use Rattle.gate_rules.specs.Lists.{before_close, hosts_in, is_close, is_open, is_option, list_width, options_in};

use host_pattern::Word;

// Whether an option begins with the word.
pub(crate) fn is_option(word: &Word) -> bool
    ensures { result ≡ is_option word.now }
{
    !word.quoted && word.text.bytes().starts_with(b"-")
}

pub(crate) fn is_open(word: &Word) -> bool
    ensures { result ≡ is_open word.now }
{
    !word.quoted && word.text.bytes() == b"{".as_slice()
}

pub(crate) fn is_close(word: &Word) -> bool
    ensures { result ≡ is_close word.now }
{
    !word.quoted && word.text.bytes() == b"}".as_slice()
}

// The place of the first option.
fn find_option(words: &[Word]) -> Option<usize>
    ensures { result ≡ position is_option words.now }
{
    words.iter().position(|word| is_option(word))
}

// How many words come before the first option.
fn count_of_hosts(words: &[Word]) -> usize
    ensures count { result ≡ position_or_len is_option words.now }
    ensures within { result ≤ length words.now }
{
    find_option(words).unwrap_or(words.len())
}

// The words of the host list.
pub(crate) fn hosts_in(words: &[Word]) -> &[Word]
    ensures { result.now ≡ hosts_in words.entry.now }
{
    &words[..count_of_hosts(words)]
}

// The words after the host list.
pub(crate) fn options_in(words: &[Word]) -> &[Word]
    ensures { result.now ≡ options_in words.entry.now }
{
    &words[count_of_hosts(words)..]
}

// The place of the first closing brace.
fn find_close(words: &[Word]) -> Option<usize>
    ensures { result ≡ position is_close words.now }
{
    words.iter().position(|word| is_close(word))
}

// How many words come before the first closing brace.
fn count_before_close(words: &[Word]) -> usize
    ensures count { result ≡ position_or_len is_close words.now }
    ensures within { result ≤ length words.now }
{
    find_close(words).unwrap_or(words.len())
}

// Whether there is a closing brace.
pub(crate) fn closes(words: &[Word]) -> bool
    ensures { result ≡ list_any is_close words.now }
{
    words.iter().any(|word| is_close(word))
}

// The words before the first closing brace.
pub(crate) fn before_close(words: &[Word]) -> &[Word]
    ensures { result.now ≡ before_close words.entry.now }
{
    &words[..count_before_close(words)]
}

// How many words the list has with which they begin, its braces among them.
pub(crate) fn list_width(words: &[Word]) -> usize
    ensures width { result ≡ list_width words.now }
    ensures within { result ≤ length words.now + 1 }
{
    match words {
        [] => 0,
        [word, more @ ..] => {
            if is_open(word) {
                count_before_close(more) + 2
            } else {
                1
            }
        }
    }
}

// The words from a place on.
pub(crate) fn from(words: &[Word], at: usize) -> &[Word]
    requires { at ≤ length words.now }
    ensures { result.now ≡ drop at words.entry.now }
{
    &words[at..]
}

// The first words, at most so many.
pub(crate) fn at_most(words: &[Word], most: usize) -> &[Word]
    ensures words { result.now ≡ take most words.entry.now }
    ensures few { length result.now ≤ most }
{
    if words.len() <= most {
        words
    } else {
        &words[..most]
    }
}
