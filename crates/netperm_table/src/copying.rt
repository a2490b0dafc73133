//! The keywords and the words of a line, copied.
ghost use Rattle.std.specs.Prelude.{◌≡◌, ◌++◌, [], ◌∷◌, filter, IfOk};
ghost use Rattle.netperm_table.specs.Bytes.{is_separator};
ghost use Rattle.netperm_table.specs.Words.{is_some_bytes, keywords_of, word_of, words_of};

use crate::part::{OpenQuote, Part, is_blank, next_part};
use crate::words::Words;
use fw_types::{NoMemory, Octets, OctetsList};
use host_pattern::Word;
use std::alloc::Global;

fn is_separator(byte: u8) -> bool
    ensures { result ≡ is_separator byte }
{
    byte == b',' || is_blank(byte)
}

// Keeps a copy of a part that isn't empty.
fn keep_part(alloc: Global, list: &mut OctetsList, part: &[u8]) -> Result<(), NoMemory>
    ensures { IfOk result (λ _. list.new ≡ list.old ++ filter is_some_bytes (part.now ∷ [])) }
{
    if part.is_empty() {
        return Ok(());
    }
    match list.push(Octets::copy(alloc, part)?) {
        Ok(()) => Ok(()),
        Err((_, e)) => Err(e),
    }
}

/// The keywords in the bytes before a colon.
pub(crate) fn read_keywords(alloc: Global, bytes: &[u8]) -> Result<OctetsList, NoMemory>
    ensures { IfOk result (λ list. list ≡ keywords_of bytes.now) }
{
    let mut keywords = OctetsList::new(alloc);
    for part in bytes.split(|byte| is_separator(*byte)) {
        keep_part(alloc, &mut keywords, part)?;
    }
    Ok(keywords)
}

// Keeps a copy of a word.
fn keep_word(alloc: Global, words: &mut Words, part: &Part) -> Result<(), NoMemory>
    ensures { IfOk result (λ _. words.new ≡ words.old ++ word_of part.now.text.now part.now.quoted ∷ []) }
{
    words.push(Word {
        text: Octets::copy(alloc, part.text)?,
        quoted: part.quoted,
    })
}

/// The words in the bytes, or nothing where a quote isn't closed.
pub(crate) fn read_words(alloc: Global, bytes: &[u8]) -> Result<Option<Words>, NoMemory>
    ensures { IfOk result (λ words. words ≡ words_of bytes.now) }
{
    let mut words = Words::new(alloc);
    let mut rest = bytes;
    loop {
        match next_part(rest) {
            Err(OpenQuote) => return Ok(None),
            Ok(None) => return Ok(Some(words)),
            Ok(Some(part)) => {
                keep_word(alloc, &mut words, &part)?;
                rest = part.rest;
            }
        }
    }
}
