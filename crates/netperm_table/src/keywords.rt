//! The keywords of lines, which lines one after the other may share.
ghost use Rattle.std.specs.Prelude.{◌≡◌, ◌==◌, length, IfOk, IfSome};
ghost use Rattle.netperm_table.specs.Words.{keywords_of};

use crate::copying::read_keywords;
use fw_types::{NoMemory, Octets, OctetsList};
use std::alloc::Global;
use std::marker::Model;
use std::rc::Rc;

/// The keywords of a line. A line that names the same as the one before it, byte by byte, shares that one's.
#[derive(Drop)]
pub struct Keywords {
    list: Rc<OctetsList>,
}

impl Model for Keywords {
    ghost use Rattle.std.specs.Prelude.{ℕ, List};

    ghost Value = { List (List ℕ) };

    ghost view = { λ keywords. keywords.list.value };
}

/// The keywords that were read last, and the bytes that named them.
#[derive(Drop)]
pub struct Named {
    bytes: Octets,
    keywords: Keywords,
}

/// What was read last, where there is something.
#[derive(Drop)]
pub(crate) struct Recent {
    named: Option<Named>,
}

impl Model for Recent {
    ghost use Rattle.std.specs.Prelude.{◌≡◌, Option, IfSome};
    ghost use Rattle.netperm_table.specs.Words.{keywords_of};
    ghost use Rattle.netperm_table.specs.declared.keywords.Named.{Named};

    ghost Value = { Option Named };

    ghost view = { λ recent. recent.named };

    ghost invariant = { λ recent. IfSome recent.named (λ named. named.keywords ≡ keywords_of named.bytes) };
}

impl Keywords {
    // These keywords.
    fn of(alloc: Global, list: OctetsList) -> Result<Keywords, NoMemory>
        ensures { IfOk result (λ keywords. keywords ≡ list) }
    {
        let list = Rc::new(alloc, list)?;
        Ok(Keywords { list })
    }

    // The same ones, shared.
    fn twin(&self) -> Result<Keywords, NoMemory>
        ensures { IfOk result (λ twin. twin ≡ self.now) }
    {
        let list = self.list.clone()?;
        Ok(Keywords { list })
    }

    /// Whether there is none.
    pub(crate) fn is_empty(&self) -> bool
        ensures { result ≡ (length self.now == 0) }
    {
        self.list.is_empty()
    }

    /// The keywords, in order.
    pub fn as_slice(&self) -> &[Octets]
        ensures { result.now ≡ self.now }
    {
        self.list.as_slice()
    }
}

impl Named {
    // The keywords, where these bytes name them.
    #[tactic(auto, using(crate::proofs::KeywordLemmas::same_keywords))]
    fn twin(&self, bytes: &[u8]) -> Result<Option<Keywords>, NoMemory>
        requires { self.now.keywords ≡ keywords_of self.now.bytes }
        ensures { IfOk result (λ found. IfSome found (λ keywords. keywords ≡ keywords_of bytes.now)) }
    {
        if self.bytes.bytes() == bytes {
            let twin = self.keywords.twin()?;
            return Ok(Some(twin));
        }
        Ok(None)
    }
}

impl Recent {
    /// Nothing was read.
    pub(crate) fn none() -> Recent {
        Recent { named: None }
    }

    // The keywords that were read last, where these bytes name them.
    fn twin(&self, bytes: &[u8]) -> Result<Option<Keywords>, NoMemory>
        ensures { IfOk result (λ found. IfSome found (λ keywords. keywords ≡ keywords_of bytes.now)) }
    {
        match &self.named {
            Some(named) => named.twin(bytes),
            None => Ok(None),
        }
    }

    // The keywords that these bytes name, which are the ones read last from now on.
    fn read(&mut self, alloc: Global, bytes: &[u8]) -> Result<Keywords, NoMemory>
        ensures { IfOk result (λ keywords. keywords ≡ keywords_of bytes.now) }
    {
        let keywords = Keywords::of(alloc, read_keywords(alloc, bytes)?)?;
        let twin = keywords.twin()?;
        let bytes = Octets::copy(alloc, bytes)?;
        self.named = Some(Named {
            bytes,
            keywords: twin,
        });
        Ok(keywords)
    }

    /// The keywords in the bytes before a colon.
    pub(crate) fn keywords(&mut self, alloc: Global, bytes: &[u8]) -> Result<Keywords, NoMemory>
        ensures { IfOk result (λ keywords. keywords ≡ keywords_of bytes.now) }
    {
        match self.twin(bytes)? {
            Some(keywords) => Ok(keywords),
            None => self.read(alloc, bytes),
        }
    }
}
