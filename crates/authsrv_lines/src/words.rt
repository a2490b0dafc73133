//! The words of a line, from left to right.
ghost use Rattle.std.specs.Prelude.{◌≡◌, ◌≤◌, [], ◌∷◌, not, length, option_map, IfSome, IfNone};
ghost use Rattle.std.specs.List.{prefix_len};
ghost use Rattle.otp_md5.specs.Hexadecimal.{is_blank};
ghost use Rattle.authsrv_lines.specs.Words.{after_word, behind_blank, body, has_none, one_of, one_or_two, two_of, word_len, words};

fn is_blank(byte: u8) -> bool
    ensures { result ≡ is_blank byte }
{
    byte == b' ' || byte == b'\t'
}

fn count_of_blanks(text: &[u8]) -> usize
    ensures count { result ≡ prefix_len is_blank text.now }
    ensures within { result ≤ length text.now }
{
    text.iter().take_while(|byte| is_blank(**byte)).count()
}

fn count_to_blank(text: &[u8]) -> usize
    ensures count { result ≡ word_len text.now }
    ensures within { result ≤ length text.now }
{
    text.iter().take_while(|byte| !is_blank(**byte)).count()
}

// What stands behind the blanks at the front.
fn body(text: &[u8]) -> &[u8]
    ensures { result.now ≡ body text.now }
{
    text.split_at(count_of_blanks(text)).1
}

/// The first word of a text, and what follows it. Words stand between runs of blanks, which are spaces and tabs.
#[tactic(auto, using(crate::proofs::WordLemmas::words_step, crate::proofs::WordLemmas::words_over), unfolding(crate::specs::Words::after_word))]
pub fn next_word(text: &[u8]) -> Option<(&[u8], &[u8])>
    ensures some { IfSome result (λ r. words text.now ≡ r.0.now ∷ words r.1.now) }
    ensures after { IfSome result (λ r. r.1.now ≡ after_word text.now) }
    ensures none { IfNone result (words text.now ≡ []) }
    ensures over { IfNone result (after_word text.now ≡ []) }
{
    let text = body(text);
    if text.is_empty() {
        return None;
    }
    Some(text.split_at(count_to_blank(text)))
}

/// What stands behind the one byte that ends a word, which is a blank.
pub(crate) fn behind_blank(text: &[u8]) -> Option<&[u8]>
    ensures { option_map (λ r. r.now) result ≡ behind_blank text.now }
{
    match text {
        [] => None,
        [_, rest @ ..] => Some(rest),
    }
}

/// The word, where there is just one.
pub(crate) fn one_word(text: &[u8]) -> Option<&[u8]>
    ensures { option_map (λ r. r.now) result ≡ one_of (words text.now) }
{
    let (first, rest) = next_word(text)?;
    match next_word(rest) {
        None => Some(first),
        Some(_) => None,
    }
}

/// The words, where there are just two.
pub(crate) fn two_words(text: &[u8]) -> Option<(&[u8], &[u8])>
    ensures { option_map (λ r. (r.0.now, r.1.now)) result ≡ two_of (words text.now) }
{
    let (first, rest) = next_word(text)?;
    let second = one_word(rest)?;
    Some((first, second))
}

/// The words of a text, where there are one or two.
pub fn one_or_two_words(text: &[u8]) -> Option<(&[u8], Option<&[u8]>)>
    ensures { option_map (λ r. (r.0.now, option_map (λ s. s.now) r.1)) result ≡ one_or_two (words text.now) }
{
    let (first, rest) = next_word(text)?;
    let Some((second, rest)) = next_word(rest) else {
        return Some((first, None));
    };
    match next_word(rest) {
        None => Some((first, Some(second))),
        Some(_) => None,
    }
}

/// Whether there is no word in a text.
pub fn has_no_word(text: &[u8]) -> bool
    ensures { result ≡ has_none (words text.now) }
{
    next_word(text).is_none()
}
