//! What holds of all dictionaries, passwords and challenges.
ghost use Rattle.std.specs.Prelude.{◌≡◌, ◌≤◌, ◌<◌, ◌^◌, ℕ, suc, List, IsTrue, Some, Ok};
ghost use Rattle.std.specs.Str.Lines.{lines};
ghost use Rattle.auth_records.specs.Texts.{is_seed};
ghost use Rattle.otp_md5.specs.Challenge.{challenge};
ghost use Rattle.otp_md5.specs.Passwords.{next_of, password};
ghost use Rattle.otp_words.specs.Challenge.{challenge_of};
ghost use Rattle.otp_words.specs.Dictionary.{IsDictionary, dictionary_of};
ghost use Rattle.otp_words.specs.Laws.{Answers, SaysOf};
ghost use Rattle.otp_words.specs.Phrase.{phrase_of, read_of};

/// Where a record keeps the password of the next count, a challenge for this count, as it is written, is read as such,
/// and its answer for the user's pass phrase is right: its `next` is the kept one.
pub fn opens()
    ensures { (word_seed phrase : List ℕ) (number kept : ℕ) → IsTrue (is_seed word_seed) → number ≤ 9999 →
        kept ≡ password word_seed phrase (suc number) → Answers (challenge number word_seed) phrase kept }
{}

/// A challenge that is written is read as it was.
pub fn challenges_are_read()
    ensures { (word_seed : List ℕ) (number : ℕ) → IsTrue (is_seed word_seed) → number ≤ 9999 →
        challenge_of (challenge number word_seed) ≡ Some (number, word_seed) }
{}

/// What is written of a password is read as that password.
pub fn inverse()
    ensures { (dictionary : List (List ℕ)) (password : ℕ) → IsDictionary dictionary → password < 2 ^ 64 →
        read_of dictionary (phrase_of dictionary password) ≡ Ok password }
{}

/// A text is a dictionary where it has 2,048 lines, all of them words and none twice, and then its words are those lines
/// in upper case. Its fault is that of its first line at fault, or that it ends too early.
pub fn a_dictionary_is_its_lines()
    ensures { (text : List ℕ) → SaysOf (lines text) (dictionary_of text) }
{}
