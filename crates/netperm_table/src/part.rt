//! The words of a line, one after the other, as parts of its bytes.
ghost use Rattle.std.specs.Prelude.{◌≡◌, ℕ, ◌<◌, ◌≤◌, List, [], ◌∷◌, true, false, not, length, take, drop, position, Some, None, IfOk, IfSome, OnErr, MatchOption};
ghost use Rattle.std.specs.List.{position_or_len};
ghost use Rattle.netperm_table.specs.Bytes.{is_blank, is_brace, is_quote, ends_word};
ghost use Rattle.netperm_table.specs.Words.{with_word, word_of, words_of};

use crate::cut::cut_at;

/// A word in the bytes of a line, without its quotes if it stands in quotes, and what follows it.
#[derive(Clone, Copy)]
pub(crate) struct Part<'a> {
    pub text: &'a [u8],
    pub quoted: bool,
    pub rest: &'a [u8],
}

/// A word begins with a quote, and no second quote follows.
#[derive(Clone, Copy)]
pub(crate) struct OpenQuote;

/// Whether the byte is a space or a tab.
pub(crate) fn is_blank(byte: u8) -> bool
    ensures { result ≡ is_blank byte }
{
    byte == b' ' || byte == b'\t'
}

fn is_brace(byte: u8) -> bool
    ensures { result ≡ is_brace byte }
{
    byte == b'{' || byte == b'}'
}

// Most bytes are passed by the first test.
#[tactic(auto, using(crate::proofs::KeywordLemmas::no_end_between))]
fn ends_word(byte: u8) -> bool
    ensures { result ≡ ends_word byte }
{
    if b' ' < byte && byte < b'{' {
        return false;
    }
    is_blank(byte) || is_brace(byte)
}

fn find_word_end(bytes: &[u8]) -> Option<usize>
    ensures { result ≡ position ends_word bytes.now }
{
    bytes.iter().position(|byte| ends_word(*byte))
}

fn find_text(bytes: &[u8]) -> Option<usize>
    ensures { result ≡ position (λ b. not (is_blank b)) bytes.now }
{
    bytes.iter().position(|byte| !is_blank(*byte))
}

// How many bytes come before the first blank or brace.
fn count_to_word_end(bytes: &[u8]) -> usize
    ensures count { result ≡ position_or_len ends_word bytes.now }
    ensures within { result ≤ length bytes.now }
{
    find_word_end(bytes).unwrap_or(bytes.len())
}

// How many bytes come before the first that isn't a blank.
fn count_of_blanks(bytes: &[u8]) -> usize
    ensures count { result ≡ position_or_len (λ b. not (is_blank b)) bytes.now }
    ensures within { result ≤ length bytes.now }
{
    find_text(bytes).unwrap_or(bytes.len())
}

// What stands after the blanks at the front.
fn after_blanks(bytes: &[u8]) -> &[u8]
    ensures words { words_of result.now ≡ words_of bytes.now }
    ensures begins { (first : ℕ) (more : List ℕ) → result.now ≡ first ∷ more → is_blank first ≡ false }
    ensures within { length result.now ≤ length bytes.now }
{
    bytes.split_at(count_of_blanks(bytes)).1
}

// The word of so many bytes, and what follows it.
fn part_of(text: &[u8], count: usize) -> Part<'_>
    requires { count ≤ length text.now }
    ensures text { result.text.now ≡ take count text.now }
    ensures quoted { result.quoted ≡ false }
    ensures rest { result.rest.now ≡ drop count text.now }
{
    let (text, rest) = text.split_at(count);
    Part {
        text,
        quoted: false,
        rest,
    }
}

// The word that begins with a quote, after which these bytes stand.
fn quoted_part(bytes: &[u8]) -> Result<Part<'_>, OpenQuote>
    ensures word { IfOk result (λ part. (first : ℕ) → is_quote first ≡ true →
        words_of (first ∷ bytes.now) ≡ with_word (word_of part.text.now part.quoted) (words_of part.rest.now)) }
    ensures open { OnErr result ((first : ℕ) → is_quote first ≡ true → words_of (first ∷ bytes.now) ≡ None) }
    ensures within { IfOk result (λ part. length part.rest.now ≤ length bytes.now) }
{
    match cut_at(b'"', bytes) {
        Some((text, rest)) => Ok(Part {
            text,
            quoted: true,
            rest,
        }),
        None => Err(OpenQuote),
    }
}

// The word that these bytes begin with.
fn first_part<'a>(first: u8, text: &'a [u8], after: &'a [u8]) -> Result<Part<'a>, OpenQuote>
    requires text { text.now ≡ first ∷ after.now }
    requires word { is_blank first ≡ false }
    ensures word { IfOk result (λ part. words_of text.now ≡ with_word (word_of part.text.now part.quoted) (words_of
        part.rest.now)) }
    ensures open { OnErr result (words_of text.now ≡ None) }
    ensures shorter { IfOk result (λ part. length part.rest.now < length text.now) }
{
    if is_brace(first) {
        return Ok(part_of(text, 1));
    }
    if first == b'"' {
        return quoted_part(after);
    }
    Ok(part_of(text, count_to_word_end(text)))
}

/// The first word of the bytes, if there is one.
pub(crate) fn next_part(bytes: &[u8]) -> Result<Option<Part<'_>>, OpenQuote>
    ensures word { IfOk result (λ next. MatchOption next (words_of bytes.now ≡ Some []) (λ part.
        words_of bytes.now ≡ with_word (word_of part.text.now part.quoted) (words_of part.rest.now))) }
    ensures open { OnErr result (words_of bytes.now ≡ None) }
    ensures shorter { IfOk result (λ next. IfSome next (λ part. length part.rest.now < length bytes.now)) }
{
    let text = after_blanks(bytes);
    match text {
        [] => Ok(None),
        [first, after @ ..] => Ok(Some(first_part(*first, text, after)?)),
    }
}
