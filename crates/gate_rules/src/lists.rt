//! Lists of patterns and of verbs.
ghost use Rattle.std.specs.Prelude.{◌≡◌, ◌≢◌, if◌then◌else◌, nat_lt, length, Some, None, Ok, Err, IfOk, IfErr, OnOk};
ghost use Rattle.std.specs.Result.{result_err};
ghost use Rattle.gate_rules.specs.Faults.{nothing_fault};
ghost use Rattle.gate_rules.specs.Lists.{alone, between, hosts_alone, members_of, patterns_in, patterns_of, verbs_in, verbs_of};

use crate::Why;
use crate::words::{at_most, before_close, closes, hosts_in, is_close, is_open, options_in};
use fw_types::{NoMemory, Verb, VerbList};
use host_pattern::{ListFault, PatternList, Word};
use std::alloc::Global;

const MOST_PATTERNS: usize = 64;

const MOST_VERBS: usize = 32;

/// What is read, or why it can't be; or there was no memory.
pub type Reading<T> = Result<Result<T, Why>, NoMemory>;

// Why at most 64 words are no list of patterns, where it isn't for want of memory.
fn cause_of(fault: ListFault) -> Result<Why, NoMemory>
    ensures ok { IfOk result (λ why. why ≡ Why.BadPattern) }
    ensures own { OnOk result (fault ≢ ListFault.NoMemory) }
{
    match fault {
        ListFault::None | ListFault::TooMany | ListFault::Bad { .. } => Ok(Why::BadPattern),
        ListFault::NoMemory => Err(NoMemory),
    }
}

// The patterns, unless there are more words than a list may have.
fn unless_more(words: &[Word], patterns: PatternList) -> Result<PatternList, Why>
    ensures { result ≡ (if nat_lt 64 (length words.now) then Err Why.TooMany else Ok patterns) }
{
    if words.len() > MOST_PATTERNS {
        return Err(Why::TooMany);
    }
    Ok(patterns)
}

// What is wrong with more words than a list may have.
fn too_many(words: &[Word]) -> Option<Why>
    ensures { result ≡ (if nat_lt 64 (length words.now) then Some Why.TooMany else None) }
{
    if words.len() > MOST_PATTERNS {
        return Some(Why::TooMany);
    }
    None
}

// Why the words are no patterns, if they aren't. It takes no memory, like all that tells a fault alone.
pub(crate) fn patterns_fault(words: &[Word]) -> Option<Why>
    ensures { result ≡ result_err (patterns_of words.now) }
{
    if words.is_empty() {
        return Some(Why::NoHosts);
    }
    match PatternList::check(at_most(words, MOST_PATTERNS)) {
        Err(_) => Some(Why::BadPattern),
        Ok(()) => too_many(words),
    }
}

// The patterns that the words are.
#[tactic(auto, unfolding(crate::specs::Lists::patterns_of))]
pub(crate) fn patterns_of(alloc: Global, words: &[Word]) -> Reading<PatternList>
    ensures { IfOk result (λ read. read ≡ patterns_of words.now) }
{
    if words.is_empty() {
        return Ok(Err(Why::NoHosts));
    }
    match PatternList::parse(alloc, at_most(words, MOST_PATTERNS)) {
        Err(fault) => Ok(Err(cause_of(fault)?)),
        Ok(patterns) => Ok(unless_more(words, patterns)),
    }
}

// The verbs that the words are.
#[tactic(auto, unfolding(crate::specs::Lists::verbs_of))]
fn verbs_of(words: &[Word]) -> Result<VerbList, Why>
    ensures { result ≡ verbs_of words.now }
{
    if words.is_empty() {
        return Err(Why::MissingValue);
    }
    let mut verbs = VerbList::new();
    let few = at_most(words, MOST_VERBS);
    for word in few {
        match Verb::read(word.text.bytes()) {
            Some(verb) => verbs.push(verb),
            None => return Err(Why::BadWord),
        }
    }
    if words.len() > MOST_VERBS {
        return Err(Why::TooMany);
    }
    Ok(verbs)
}

// What stands between an open brace before the words and the first closing one.
fn between(words: &[Word]) -> Result<&[Word], Why>
    ensures ok { IfOk result (λ members. between words.entry.now ≡ Ok members.now) }
    ensures err { IfErr result (λ why. between words.entry.now ≡ Err why) }
{
    if closes(words) {
        Ok(before_close(words))
    } else {
        Err(Why::OpenBrace)
    }
}

// The members of the list with which the words begin.
fn members_of(words: &[Word]) -> Result<&[Word], Why>
    ensures ok { IfOk result (λ members. members_of words.entry.now ≡ Ok members.now) }
    ensures err { IfErr result (λ why. members_of words.entry.now ≡ Err why) }
{
    match words {
        [] => Err(Why::MissingValue),
        [word, more @ ..] => {
            if is_open(word) {
                between(more)
            } else if is_close(word) {
                Err(Why::BadWord)
            } else {
                Ok(at_most(words, 1))
            }
        }
    }
}

// The patterns of the list with which the words begin.
pub(crate) fn patterns_in(alloc: Global, words: &[Word]) -> Reading<PatternList>
    ensures { IfOk result (λ read. read ≡ patterns_in words.now) }
{
    match members_of(words) {
        Ok(members) => patterns_of(alloc, members),
        Err(why) => Ok(Err(why)),
    }
}

// Why the list with which the words begin isn't one of patterns.
pub(crate) fn patterns_in_fault(words: &[Word]) -> Option<Why>
    ensures { result ≡ result_err (patterns_in words.now) }
{
    match members_of(words) {
        Ok(members) => patterns_fault(members),
        Err(why) => Some(why),
    }
}

// The verbs of the list with which the words begin.
pub(crate) fn verbs_in(words: &[Word]) -> Result<VerbList, Why>
    ensures { result ≡ verbs_in words.now }
{
    match members_of(words) {
        Ok(members) => verbs_of(members),
        Err(why) => Err(why),
    }
}

fn alone(hosts: Result<PatternList, Why>, words: &[Word]) -> Result<PatternList, Why>
    ensures { result ≡ alone hosts words.now }
{
    match hosts {
        Err(why) => Err(why),
        Ok(hosts) => match words {
            [] => Ok(hosts),
            [_, ..] => Err(Why::BadWord),
        },
    }
}

// A host list with nothing after it.
pub(crate) fn hosts_alone(alloc: Global, words: &[Word]) -> Reading<PatternList>
    ensures { IfOk result (λ read. read ≡ hosts_alone words.now) }
{
    let hosts = patterns_of(alloc, hosts_in(words))?;
    Ok(alone(hosts, options_in(words)))
}

// Why the words are no host list with nothing after it.
#[tactic(auto, using(crate::proofs::ListsLemmas::alone_fault))]
pub(crate) fn hosts_alone_fault(words: &[Word]) -> Option<Why>
    ensures { result ≡ result_err (hosts_alone words.now) }
{
    patterns_fault(hosts_in(words)).or(nothing_fault(options_in(words)))
}

// What is wrong with words where none may be.
fn nothing_fault(words: &[Word]) -> Option<Why>
    ensures { result ≡ nothing_fault words.now }
{
    match words {
        [] => None,
        [_, ..] => Some(Why::BadWord),
    }
}
