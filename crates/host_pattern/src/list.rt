ghost use Rattle.std.specs.Prelude.{◌≡◌, ◌≢◌, ◌+◌, ◌<◌, ◌≤◌, List, [], ◌∷◌, ◌++◌, length, map, Ok, Err, OnOk, IfOk, IfErr, IfSome, IfNone, IsTrue, is_ok};
ghost use Rattle.std.specs.List.{enumerate_from, filter_map, list_any};
ghost use Rattle.host_pattern.specs.Bucket.{bucket_of, buckets, is_every};
ghost use Rattle.host_pattern.specs.declared.bucket.Bucket.TheVariants.{Octet};
ghost use Rattle.host_pattern.specs.Pattern.{Written, begins_negated, body_of, parsed, read_as, written};
ghost use Rattle.host_pattern.specs.PatternList.{bad, good, list_parsed, list_matches, matches, patterns_tested, unless_any_bad};

use crate::bucket::{Bucket, bucket_of};
use crate::fault::{ListFault, PatternFault};
use crate::pattern::{Pattern, check_body, test_body, unmarked};
use crate::steps::Steps;
use crate::word::Word;
use arrayvec::ArrayVec;
use fw_types::{NoMemory, Octets, OctetsList, Peer};
use std::alloc::Global;
use std::marker::Model;
use std::sync::ledger::Ledger;

const MOST: usize = 64;

/// A list of 1 to 64 patterns. It keeps their texts, which are short, and reads each again where it is tested.
#[derive(Drop)]
pub struct PatternList {
    texts: OctetsList,
}

impl Model for PatternList {
    ghost use Rattle.std.specs.Prelude.{List, length, map, ◌<◌, ◌≤◌};
    ghost use Rattle.host_pattern.specs.Pattern.{Written, read_as};

    ghost Value = { List Written };

    ghost view = { λ list. map read_as list.texts };

    ghost invariant = { λ list. (0 < length list.texts) × (length list.texts ≤ 64) };
}

// Whether a text is a pattern, or the first thing that is wrong with it.
#[tactic(auto, using(crate::proofs::PatternLemmas::body_is_read), unfolding(crate::specs::Pattern::parsed))]
fn check(text: &[u8]) -> Result<(), PatternFault>
    ensures ok { OnOk result (parsed text.now ≡ Ok (read_as text.now)) }
    ensures err { IfErr result (λ why. parsed text.now ≡ Err why) }
{
    check_body(unmarked(text).1)
}

// Whether the body of the pattern that a text is matches the party. It is one step.
fn test<L: Ledger>(text: &Octets, party: &Peer, steps: &mut Steps<L>) -> bool
    ensures answer { result ≡ matches party.now (read_as text.now) }
    ensures one_step { steps.new ≡ steps.old + 1 }
{
    test_body(unmarked(text.bytes()).1, party, steps)
}

fn is_negated(text: &Octets) -> bool
    ensures { result ≡ begins_negated text.now }
{
    unmarked(text.bytes()).0
}

// The bucket of the pattern that a text is.
fn bucket(text: &Octets) -> Bucket
    ensures { result ≡ bucket_of (body_of text.now) }
{
    bucket_of(unmarked(text.bytes()).1)
}

// The octets to which the patterns belong that the texts are.
#[tactic(auto, using(crate::proofs::BucketLemmas::octets_further, crate::proofs::BucketLemmas::every_at, crate::proofs::BucketLemmas::octets_all))]
fn octets_of(texts: &[Octets]) -> Option<ArrayVec<u8, 64>>
    requires { length texts.now ≤ 64 }
    ensures some { IfSome result (λ octets. map Octet octets.items ≡ buckets (map read_as texts.now)) }
    ensures none { IfNone result (IsTrue (list_any is_every (buckets (map read_as texts.now)))) }
{
    let mut octets = ArrayVec::new();
    for text in texts {
        match bucket(text) {
            Bucket::Octet(octet) => octets.push(octet),
            Bucket::Every => return None,
        }
    }
    Some(octets)
}

// Adds a copy of a text.
fn add(alloc: Global, texts: &mut OctetsList, text: &[u8]) -> Result<(), NoMemory>
    ensures { OnOk result (texts.new ≡ texts.old ++ text.now ∷ []) }
{
    match texts.push(Octets::copy(alloc, text)?) {
        Ok(()) => Ok(()),
        Err((_, e)) => Err(e),
    }
}

// Whether each of the words is a pattern, or the first that is none.
fn check_each(words: &[Word]) -> Result<(), ListFault>
    ensures ok { OnOk result (filter_map bad (enumerate_from 0 words.now) ≡ []) }
    ensures err { IfErr result (λ e. (patterns : List Written) →
        unless_any_bad (filter_map bad (enumerate_from 0 words.now)) patterns ≡ Err e) }
    ensures own { IfErr result (λ e. e ≢ ListFault.NoMemory) }
{
    for (at, word) in words.iter().enumerate() {
        match check(word.text.bytes()) {
            Ok(()) => (),
            Err(why) => return Err(ListFault::Bad { at, why }),
        }
    }
    Ok(())
}

// The texts of the words.
fn texts_of(alloc: Global, words: &[Word]) -> Result<OctetsList, NoMemory>
    ensures { IfOk result (λ texts. texts ≡ map (λ w. w.text) words.now) }
{
    let mut texts = OctetsList::new(alloc);
    for word in words {
        add(alloc, &mut texts, word.text.bytes())?;
    }
    Ok(texts)
}

impl PatternList {
    /// Whether the words, quoted or not, are a list of patterns. It takes no memory.
    ///
    /// # Errors
    ///
    /// Those of [`PatternList::parse`] but `NoMemory`.
    #[tactic(auto, unfolding(crate::specs::PatternList::list_parsed))]
    pub fn check(words: &[Word]) -> Result<(), ListFault>
        ensures ok { OnOk result (list_parsed words.now ≡ Ok (filter_map good words.now)) }
        ensures err { IfErr result (λ e. list_parsed words.now ≡ Err e) }
        ensures own { IfErr result (λ e. e ≢ ListFault.NoMemory) }
    {
        if words.is_empty() {
            return Err(ListFault::None);
        }
        if words.len() > MOST {
            return Err(ListFault::TooMany);
        }
        check_each(words)
    }

    /// The list of patterns that the words are, quoted or not.
    ///
    /// # Errors
    ///
    /// The first that applies: `None` where there are no words, `TooMany` where there are over 64, `Bad` at the first
    /// word that is no pattern. Or `NoMemory`, only where the words are a list of patterns: no memory is taken before
    /// that is known.
    pub fn parse(alloc: Global, words: &[Word]) -> Result<PatternList, ListFault>
        ensures ok { IfOk result (λ list. list_parsed words.now ≡ Ok list) }
        ensures err { IfErr result (λ e. e ≢ ListFault.NoMemory → list_parsed words.now ≡ Err e) }
        ensures memory { IfErr result (λ e. e ≡ ListFault.NoMemory → IsTrue (is_ok (list_parsed words.now))) }
    {
        match PatternList::check(words) {
            Ok(()) => PatternList::copied(alloc, words),
            Err(fault) => Err(fault),
        }
    }

    // The list of patterns that the words are.
    #[tactic(auto, using(crate::proofs::ListLemmas::copies, crate::proofs::ListLemmas::some, crate::proofs::ListLemmas::few))]
    fn copied(alloc: Global, words: &[Word]) -> Result<PatternList, ListFault>
        requires { list_parsed words.now ≡ Ok (filter_map good words.now) }
        ensures ok { IfOk result (λ list. list ≡ filter_map good words.now) }
        ensures err { IfErr result (λ e. e ≡ ListFault.NoMemory) }
    {
        let texts = texts_of(alloc, words)?;
        Ok(PatternList { texts })
    }

    /// The list of this pattern alone.
    pub fn of(alloc: Global, pattern: &Pattern) -> Result<PatternList, NoMemory>
        ensures { IfOk result (λ list. list ≡ pattern.now ∷ []) }
    {
        let mut text = ArrayVec::new();
        pattern.write(&mut text);
        let mut texts = OctetsList::new(alloc);
        add(alloc, &mut texts, text.as_slice())?;
        Ok(PatternList { texts })
    }

    /// The texts of its patterns, in order.
    #[tactic(auto, using(crate::proofs::ListLemmas::texts_written))]
    pub fn texts(&self) -> &[Octets]
        ensures texts { result.now ≡ map written self.now }
        ensures some { 0 < length self.now }
        ensures few { length self.now ≤ 64 }
    {
        self.texts.as_slice()
    }

    /// The octets to whose buckets its patterns belong, one for each pattern, or nothing where one belongs to every
    /// bucket. It takes no memory.
    pub fn octets(&self) -> Option<ArrayVec<u8, 64>>
        ensures some { IfSome result (λ octets. map Octet octets.items ≡ buckets self.now) }
        ensures none { IfNone result (IsTrue (list_any is_every (buckets self.now))) }
    {
        octets_of(self.texts.as_slice())
    }

    /// Whether the list matches the party: the first pattern whose body matches decides, by having no `!`.
    /// Where none matches, the list does not.
    pub fn matches<L: Ledger>(&self, party: &Peer, steps: &mut Steps<L>) -> bool
        ensures answer { result ≡ list_matches self.now party.now }
        ensures steps { steps.new ≡ steps.old + patterns_tested self.now party.now }
        ensures bound { steps.new ≤ steps.old + length self.now }
    {
        for text in self.texts.as_slice() {
            if test(text, party, steps) {
                return !is_negated(text);
            }
        }
        false
    }
}
