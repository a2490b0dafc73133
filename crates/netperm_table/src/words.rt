ghost use Rattle.std.specs.Prelude.{◌≡◌, [], ◌∷◌, ◌++◌, IfOk, OnOk};

use fw_types::NoMemory;
use host_pattern::Word;
use std::alloc::Global;
use std::marker::Model;
use std::{mem, slice};

/// Where words are kept.
#[derive(Drop)]
pub enum Storage {
    None,
    One(Word),
    More(Vec<Word>),
}

/// The words of a line after its attribute. A single one is kept in the value itself.
#[derive(Drop)]
pub struct Words {
    alloc: Global,
    storage: Storage,
}

impl Model for Words {
    ghost use Rattle.std.specs.Prelude.{List};
    ghost use Rattle.host_pattern.specs.declared.word.Word.{Word};
    ghost use Rattle.netperm_table.specs.Storage.{stored_words};

    ghost Value = { List Word };

    ghost view = { λ words. stored_words words.storage };
}

fn two(alloc: Global, first: Word, second: Word) -> Result<Vec<Word>, NoMemory>
    ensures { IfOk result (λ words. words.items ≡ first ∷ second ∷ []) }
{
    let mut words = Vec::with_capacity(alloc, 2)?;
    words.push_reserved(first);
    words.push_reserved(second);
    Ok(words)
}

fn more(mut words: Vec<Word>, word: Word) -> Result<Vec<Word>, NoMemory>
    ensures { IfOk result (λ longer. longer.items ≡ words.items ++ word ∷ []) }
{
    words.push(word)?;
    Ok(words)
}

impl Words {
    /// No word yet. What is pushed later is kept in memory of `alloc`.
    pub(crate) fn new(alloc: Global) -> Words
        ensures { result ≡ [] }
    {
        Words {
            alloc,
            storage: Storage::None,
        }
    }

    /// Adds a word at the end; where there is no memory for it, none is left.
    pub(crate) fn push(&mut self, word: Word) -> Result<(), NoMemory>
        ensures { OnOk result (self.new ≡ self.old ++ word ∷ []) }
    {
        self.storage = match mem::replace(&mut self.storage, Storage::None) {
            Storage::None => Storage::One(word),
            Storage::One(first) => Storage::More(two(self.alloc, first, word)?),
            Storage::More(words) => Storage::More(more(words, word)?),
        };
        Ok(())
    }

    /// The words, in order.
    pub fn as_slice(&self) -> &[Word]
        ensures { result.now ≡ self.now }
    {
        match &self.storage {
            Storage::None => &[],
            Storage::One(word) => slice::from_ref(word),
            Storage::More(words) => words.as_slice(),
        }
    }
}
