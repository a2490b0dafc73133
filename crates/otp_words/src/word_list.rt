//! Words in order, which are found by an index of their own.
ghost use Rattle.std.specs.Prelude.{◌≡◌, ◌≢◌, ◌≤◌, ◌<◌, [], ◌∷◌, ◌++◌, length, map, List, ℕ, true, position, IfSome, IfOk, IfErr, None, Err};
ghost use Rattle.std.specs.List.{list_all};
ghost use Rattle.std.specs.Char.{is_ascii_alphabetic};
ghost use Rattle.std.specs.Str.{bytes_eq, str_to_ascii_uppercase};
ghost use Rattle.otp_words.specs.Dictionary.{AreApart, is_capital_word, is_word, number_of, word_at, words_then};

use crate::dict_fault::DictFault;
use arrayvec::ArrayVec;
use fw_types::copy_of;
use std::alloc::Global;
use std::collections::BTreeMap;
use std::marker::Model;

/// A word of at most 4 bytes.
type Word = ArrayVec<u8, 4>;

/// How many words a dictionary has.
pub(crate) const ALL: usize = 2048;

/// At most 2,048 words of 1 to 4 capitals, none of them twice.
#[derive(Drop)]
pub(crate) struct WordList {
    words: Vec<Word>,
    numbers: BTreeMap<Word, u16>,
}

impl Model for WordList {
    ghost use Rattle.std.specs.Prelude.{ℕ, List, map, ◌≤◌, length};
    ghost use Rattle.otp_words.specs.Indexed.{IsIndex, items_of};
    ghost use Rattle.otp_words.specs.Dictionary.{AreApart};

    ghost Value = { List (List ℕ) };

    ghost view = { λ list. items_of list.words.items };

    ghost invariant = { λ list. (length (items_of list.words.items) ≤ 2048) × AreApart (items_of list.words.items) × IsIndex list.numbers (items_of list.words.items) };
}

fn all_letters(text: &[u8]) -> bool
    ensures { result ≡ list_all is_ascii_alphabetic text.now }
{
    text.iter().all(|byte| byte.is_ascii_alphabetic())
}

fn is_word(line: &[u8]) -> bool
    ensures { result ≡ is_word line.now }
{
    !line.is_empty() && line.len() <= 4 && all_letters(line)
}

// A copy of a word in upper case.
fn upper_copy_of(text: &[u8]) -> Word
    requires { length text.now ≤ 4 }
    ensures { result.items ≡ str_to_ascii_uppercase text.now }
{
    let mut word = ArrayVec::new();
    for byte in text {
        word.push(byte.to_ascii_uppercase());
    }
    word
}

impl WordList {
    /// No words.
    pub(crate) fn new(alloc: Global) -> WordList
        ensures { result ≡ [] }
    {
        WordList {
            words: Vec::new(alloc),
            numbers: BTreeMap::new(alloc),
        }
    }

    /// How many words there are.
    pub(crate) fn len(&self) -> usize
        ensures len { result ≡ length self.now }
        ensures most { result ≤ 2048 }
        ensures apart { AreApart self.now }
    {
        self.words.len()
    }

    // The words with one more at their end, which isn't among them.
    fn and(self, word: Word) -> Result<WordList, DictFault>
        requires room { length self < 2048 }
        requires form { is_capital_word word.items ≡ true }
        requires apart { position (bytes_eq word.items) self ≡ None }
        ensures ok { IfOk result (λ list. list ≡ self ++ word.items ∷ []) }
        ensures err { IfErr result (λ e. e ≡ DictFault.NoMemory) }
    {
        let WordList {
            mut words,
            mut numbers,
        } = self;
        numbers.insert(copy_of(word.as_slice()), words.len() as u16)?;
        words.push(word)?;
        Ok(WordList { words, numbers })
    }

    // The number of a word in upper case.
    fn number_of_word(&self, word: &Word) -> Option<u16>
        ensures number { result ≡ position (bytes_eq word.now.items) self.now }
        ensures within { IfSome result (λ number. number < length self.now) }
    {
        self.numbers.get(word).copied()
    }

    /// The words with that of the next line of a dictionary.
    #[tactic(auto, using(crate::proofs::ListLemmas::upper_capital))]
    pub(crate) fn with_line(self, line: &[u8]) -> Result<WordList, DictFault>
        ensures ok { IfOk result (λ list. (more : List (List ℕ)) → words_then self (line.now ∷ more) ≡ words_then list more) }
        ensures fault { IfErr result (λ e. e ≢ DictFault.NoMemory →
            (more : List (List ℕ)) → words_then self (line.now ∷ more) ≡ Err e) }
        ensures own { IfErr result (λ e. e ≢ DictFault.ReadFault) }
    {
        let count = self.len();
        if count == ALL {
            return Err(DictFault::Long);
        }
        let number = count as u32 + 1;
        if !is_word(line) {
            return Err(DictFault::BadWord { line: number });
        }
        let word = upper_copy_of(line);
        if self.number_of_word(&word).is_some() {
            return Err(DictFault::Twice { line: number });
        }
        self.and(word)
    }

    /// The number of a word, in whatever case.
    pub(crate) fn number(&self, word: &[u8]) -> Option<u16>
        ensures number { result ≡ number_of self.now word.now }
        ensures within { IfSome result (λ number. number < length self.now) }
    {
        // that shows that no word is longer
        let _ = &self.words;
        if word.len() > 4 {
            return None;
        }
        self.number_of_word(&upper_copy_of(word))
    }

    /// The word with this number.
    pub(crate) fn word(&self, number: u16) -> &[u8]
        requires { number < length self.now }
        ensures word { result.now ≡ word_at self.now number }
        ensures short { length result.now ≤ 4 }
    {
        self.words[usize::from(number)].as_slice()
    }
}
