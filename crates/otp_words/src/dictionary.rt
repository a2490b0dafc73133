ghost use Rattle.std.specs.Prelude.{◌≡◌, ◌≢◌, ◌↔◌, ◌<◌, ◌^◌, ◌++◌, ℕ, [], false, length, map, ◌==◌, All, IfOk, IfErr, IfSome, IfNone, OnErr, Some, None, Ok, Err};
ghost use Rattle.fw_outside.specs.FilesView.{has_failed};
ghost use Rattle.std.specs.Str.Lines.{lines};
ghost use Rattle.authsrv_lines.specs.Words.{words};
ghost use Rattle.otp_words.specs.Dictionary.{IsDictionary, dictionary_of, number_of, words_then};
ghost use Rattle.otp_words.specs.Phrase.{password_in, phrase_of, read_of, spelled_of};
ghost use Rattle.otp_words.specs.Listed.{listed};
ghost use Rattle.otp_words.specs.SixWords.{six};
ghost use Rattle.otp_words.specs.Taking.{AreWordsOf, IsFaultOf, SourceAfterRead, is_read_fault};

use crate::dict_fault::DictFault;
use crate::gathering::gather;
use crate::lines::next_line;
use crate::six_numbers::{password_of, six};
use crate::six_words::{SixWords, six_words};
use crate::word_list::{ALL, WordList};
use crate::words_fault::WordsFault;
use arrayvec::ArrayVec;
use fw_outside::Source;
use fw_types::{append, append_byte};
use std::alloc::Global;
use std::marker::Model;

/// A dictionary: 2,048 words of 1 to 4 capitals, none of them twice (RFC 2289, 6.2 and appendix D).
#[derive(Drop)]
pub struct Dictionary {
    list: WordList,
}

impl Model for Dictionary {
    ghost use Rattle.std.specs.Prelude.{List, ℕ};
    ghost use Rattle.otp_words.specs.Dictionary.{IsDictionary};

    ghost Value = { List (List ℕ) };

    ghost view = { λ dictionary. dictionary.list };

    ghost invariant = { λ dictionary. IsDictionary dictionary.list };
}

// The words of the lines of a text.
fn read_lines(alloc: Global, text: &[u8]) -> Result<WordList, DictFault>
    ensures ok { IfOk result (λ list. dictionary_of text.now ≡ words_then list []) }
    ensures fault { IfErr result (λ e. e ≢ DictFault.NoMemory → dictionary_of text.now ≡ Err e) }
    ensures own { IfErr result (λ e. e ≢ DictFault.ReadFault) }
{
    let mut list = WordList::new(alloc);
    let mut rest = text;
    while let Some((line, more)) = next_line(rest) {
        list = list.with_line(line)?;
        rest = more;
    }
    Ok(list)
}

// The dictionary that a text is.
fn dictionary_in(alloc: Global, text: &[u8]) -> Result<Dictionary, DictFault>
    ensures ok { IfOk result (λ dictionary. dictionary_of text.now ≡ Ok dictionary) }
    ensures fault { IfErr result (λ e. e ≢ DictFault.NoMemory → dictionary_of text.now ≡ Err e) }
    ensures own { IfErr result (λ e. e ≢ DictFault.ReadFault) }
{
    let list = read_lines(alloc, text)?;
    let count = list.len();
    if count < ALL {
        return Err(DictFault::Short {
            words: count as u32,
        });
    }
    Ok(Dictionary { list })
}

impl Dictionary {
    /// Reads a dictionary: 2,048 lines, each ended by LF or CR LF, of a word of 1 to 4 letters, which is put to upper
    /// case. Line k has the word of the number k - 1.
    ///
    /// # Errors
    ///
    /// `BadWord` and `Twice` at the first line that is no word or whose word stood before; `Long` where a 2,049th line
    /// comes after good ones; `Short` where the text ends earlier; `ReadFault` where the source failed or nothing came
    /// in time; `NoMemory`.
    pub fn read<S: Source>(alloc: Global, from: &mut S) -> Result<Dictionary, DictFault>
        ensures words { IfOk result (λ dictionary. AreWordsOf (S.source_view from.old).left dictionary) }
        ensures fault { IfErr result (λ e. IsFaultOf (S.source_view from.old).left e) }
        ensures source { SourceAfterRead result (S.source_view from.old) (S.source_view from.new) }
        ensures failed { has_failed (S.source_view from.old) ≡ false →
            has_failed (S.source_view from.new) ≡ is_read_fault result }
    {
        match gather(from) {
            Ok(text) => dictionary_in(alloc, text.as_slice()),
            Err(fault) => Err(fault),
        }
    }

    /// Sets `out` to the six words of a password, with one space between.
    pub fn words_of(&self, password: u64, out: &mut ArrayVec<u8, 32>)
        ensures words { out.new.items ≡ phrase_of self.now password }
        ensures form { IsDictionary self.now }
    {
        let numbers = six(password);
        out.clear();
        append(out, self.list.word(numbers[0]));
        for number in &numbers[1..] {
            append_byte(out, b' ');
            append(out, self.list.word(*number));
        }
    }

    // The number of the word at this place among six, counted from 1.
    fn number_at(&self, at: u8, word: &[u8]) -> Result<u16, WordsFault>
        ensures ok { IfOk result (λ number. number_of self.now word.now ≡ Some number) }
        ensures within { IfOk result (λ number. number < 2048) }
        ensures none { OnErr result (number_of self.now word.now ≡ None) }
        ensures fault { IfErr result (λ e. e ≡ WordsFault.NoWord at) }
    {
        self.list.number(word).ok_or(WordsFault::NoWord { at })
    }

    // The numbers of six words, or the fault of the first that the dictionary hasn't.
    fn numbers_of(&self, six: &SixWords) -> Result<[u16; 6], WordsFault>
        ensures ok { IfOk result (λ numbers. map (number_of self.now) (listed six.now) ≡ map Some numbers) }
        ensures within { IfOk result (λ numbers. All (λ number. number < 2048) numbers) }
        ensures fault { IfErr result (λ e. password_in self.now (listed six.now) ≡ Err e) }
    {
        Ok([
            self.number_at(1, six.first)?,
            self.number_at(2, six.second)?,
            self.number_at(3, six.third)?,
            self.number_at(4, six.fourth)?,
            self.number_at(5, six.fifth)?,
            self.number_at(6, six.last)?,
        ])
    }

    // The password of six words without blanks.
    fn read_plain(&self, six: &SixWords) -> Result<u64, WordsFault>
        ensures { result ≡ password_in self.now (listed six.now) }
    {
        let numbers = self.numbers_of(six)?;
        password_of(numbers).ok_or(WordsFault::Check)
    }

    /// The password that a text is: six words of the dictionary, cut at blanks, in whatever case.
    ///
    /// # Errors
    ///
    /// `Count` where there aren't six words; `NoWord` at the first, from 1, that the dictionary hasn't; `Check` where
    /// the check bits aren't those of the password.
    pub fn read_words(&self, text: &[u8]) -> Result<u64, WordsFault>
        ensures answer { result ≡ read_of self.now text.now }
        ensures exact { (password : ℕ) → (result ≡ Ok password) ↔
            ((password < 2 ^ 64) × (map (number_of self.now) (words text.now) ≡ map Some (six password))) }
    {
        // that shows how many words there are
        let _ = &self.list;
        let Some(words) = six_words(text) else {
            return Err(WordsFault::Count);
        };
        self.read_plain(&words)
    }

    /// The password of six words, in whatever case.
    ///
    /// # Errors
    ///
    /// `Count` where one of them holds a blank or is empty; `NoWord` at the first, from 1, that the dictionary hasn't;
    /// `Check` where the check bits aren't those of the password.
    #[tactic(auto, unfolding(crate::specs::Phrase::spelled_of))]
    pub fn read_six(&self, six: &SixWords) -> Result<u64, WordsFault>
        ensures { result ≡ spelled_of self.now (listed six.now) }
    {
        if !six.are_plain() {
            return Err(WordsFault::Count);
        }
        self.read_plain(six)
    }
}
