//! What a user is asked (RFC 2289, 6.0, the form of inputs).
ghost use Rattle.std.specs.Prelude.{◌≡◌};
ghost use Rattle.std.specs.Str.{str_eq_ignore_ascii_case};
ghost use Rattle.std.specs.Prelude.{codes};
ghost use Rattle.otp_words.specs.Challenge.{challenge_of};

use auth_records::Seed;
use authsrv_lines::next_word;
use fw_types::{in_range, read_number};

// Whether the word names the algorithm, in any case.
fn names_md5(word: &[u8]) -> bool
    ensures { result ≡ str_eq_ignore_ascii_case word.now (codes "otp-md5") }
{
    word.eq_ignore_ascii_case(b"otp-md5")
}

/// The count and the seed that a challenge asks for: `otp-md5` in any case, a number from 0 to 9,999 and 1 to 16 letters
/// and digits, put to lower case, cut at blanks. Further words are ignored. Nothing for other texts.
#[tactic(auto, unfolding(crate::specs::Challenge::challenge_of))]
pub fn read_challenge(text: &[u8]) -> Option<(u32, Seed)>
    ensures { result ≡ challenge_of text.now }
{
    let (name, rest) = next_word(text)?;
    let (number, rest) = next_word(rest)?;
    let (word_seed, _) = next_word(rest)?;
    if !names_md5(name) {
        return None;
    }
    let number = in_range(0, 9_999, read_number(number))?;
    let word_seed = Seed::read(word_seed)?;
    Some((number as u32, word_seed))
}
