//! Six words, apart or cut from a text.
ghost use Rattle.std.specs.Prelude.{◌≡◌, ◌==◌, not, false, length, IfSome, IfNone};
ghost use Rattle.std.specs.List.{list_all};
ghost use Rattle.otp_md5.specs.Hexadecimal.{is_blank};
ghost use Rattle.authsrv_lines.specs.Words.{words};
ghost use Rattle.otp_words.specs.Listed.{listed};
ghost use Rattle.otp_words.specs.Phrase.{is_plain};

use authsrv_lines::next_word;

/// Six words in order, each of whatever bytes.
#[derive(Drop)]
pub struct SixWords<'a> {
    pub first: &'a [u8],
    pub second: &'a [u8],
    pub third: &'a [u8],
    pub fourth: &'a [u8],
    pub fifth: &'a [u8],
    pub last: &'a [u8],
}

fn has_no_blank(word: &[u8]) -> bool
    ensures { result ≡ list_all (λ byte. not (is_blank byte)) word.now }
{
    word.iter().all(|byte| !(*byte == b' ' || *byte == b'\t'))
}

fn is_plain(word: &[u8]) -> bool
    ensures { result ≡ is_plain word.now }
{
    !word.is_empty() && has_no_blank(word)
}

impl SixWords<'_> {
    // Whether none of them is empty or holds a blank.
    pub(crate) fn are_plain(&self) -> bool
        ensures { result ≡ list_all is_plain (listed self.now) }
    {
        is_plain(self.first)
            && is_plain(self.second)
            && is_plain(self.third)
            && is_plain(self.fourth)
            && is_plain(self.fifth)
            && is_plain(self.last)
    }
}

/// The six words of a text, where there are so many.
pub(crate) fn six_words(text: &[u8]) -> Option<SixWords<'_>>
    ensures some { IfSome result (λ six. words text.now ≡ listed six) }
    ensures none { IfNone result ((length (words text.now) == 6) ≡ false) }
{
    let (first, rest) = next_word(text)?;
    let (second, rest) = next_word(rest)?;
    let (third, rest) = next_word(rest)?;
    let (fourth, rest) = next_word(rest)?;
    let (fifth, rest) = next_word(rest)?;
    let (last, rest) = next_word(rest)?;
    match next_word(rest) {
        Some(_) => None,
        None => Some(SixWords {
            first,
            second,
            third,
            fourth,
            fifth,
            last,
        }),
    }
}
