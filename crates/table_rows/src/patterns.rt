//! What is told of patterns and lists of them.
ghost use Rattle.std.specs.Prelude.{◌≡◌, ◌<◌};

use arrayvec::ArrayVec;
use fw_types::{HostName, NoMemory, Octets, Peer, read_quad};
use host_pattern::{Bucket, ListFault, Pattern, PatternFault, PatternList, Steps, Word};
use lines_of_rows::{Told, add, add_number, add_word, cut_word};
use std::alloc::Global;
use std::marker::Brand;
use std::sync::ledger::{Blank, Ledger};

fn pattern_matches<L: Ledger>(pattern: &Pattern, party: &Peer, blank: Blank) -> bool
    requires name { blank.name ≡ L.name }
    requires parts { blank.parts ≡ L.parts }
    requires some { 0 < blank.parts }
{
    let mut steps = Steps::<L>::new(blank);
    pattern.matches(party, &mut steps)
}

fn list_matches<L: Ledger>(list: &PatternList, party: &Peer, blank: Blank) -> bool
    requires name { blank.name ≡ L.name }
    requires parts { blank.parts ≡ L.parts }
    requires some { 0 < blank.parts }
{
    let mut steps = Steps::<L>::new(blank);
    list.matches(party, &mut steps)
}

fn pattern_says(pattern: &Pattern, party: &Peer) -> bool {
    pattern_matches::<Brand>(pattern, party, Blank::new(1))
}

pub(crate) fn list_says(list: &PatternList, party: &Peer) -> bool {
    list_matches::<Brand>(list, party, Blank::new(1))
}

/// The party with this address and this name. `-` is none.
pub(crate) fn party_of(addr: &[u8], name: &[u8]) -> Peer {
    Peer {
        addr: read_quad(addr),
        name: if name == b"-".as_slice() {
            None
        } else {
            HostName::read(name)
        },
    }
}

/// Tells `yes` or `no`.
pub(crate) fn tell_truth(truth: bool, out: &mut Told) {
    if truth {
        add_word(out, b"yes");
    } else {
        add_word(out, b"no");
    }
}

fn tell_pattern_fault(fault: PatternFault, out: &mut Told) {
    match fault {
        PatternFault::Empty => add_word(out, b"empty"),
        PatternFault::TooLong => add_word(out, b"too long"),
        PatternFault::BadByte { at } => {
            add_word(out, b"bad byte at");
            add_number(out, at as u64);
        }
        PatternFault::BadMask => add_word(out, b"bad mask"),
    }
}

fn tell_list_fault(fault: ListFault, out: &mut Told) {
    match fault {
        ListFault::None => add(out, b"none"),
        ListFault::TooMany => add(out, b"too many"),
        ListFault::NoMemory => add(out, b"no memory"),
        ListFault::Bad { at, why } => {
            add_number(out, at as u64);
            tell_pattern_fault(why, out);
        }
    }
}

/// `pattern ADDRESS NAME PATTERN => yes`: whether the pattern's body matches.
pub(crate) fn tell_pattern(asked: &[u8], out: &mut Told) {
    let (addr, rest) = cut_word(asked);
    let (name, text) = cut_word(rest);
    match Pattern::parse(text) {
        Ok(pattern) => {
            let matches = pattern_says(&pattern, &party_of(addr, name));
            tell_truth(matches, out);
        }
        Err(fault) => tell_pattern_fault(fault, out),
    }
}

/// `parse TEXT => negated BODY as TEXT`, or `plain`, or what is wrong.
pub(crate) fn tell_text(asked: &[u8], out: &mut Told) {
    let pattern = match Pattern::parse(asked) {
        Ok(pattern) => pattern.twin(),
        Err(fault) => return tell_pattern_fault(fault, out),
    };
    if pattern.negated() {
        add(out, b"negated");
    } else {
        add(out, b"plain");
    }
    add_word(out, pattern.body());
    let mut text = ArrayVec::new();
    pattern.write(&mut text);
    add_word(out, b"as");
    add_word(out, text.as_slice());
}

/// `bucket TEXT => octet 10`, or `every`, or what is wrong.
pub(crate) fn tell_bucket(asked: &[u8], out: &mut Told) {
    match Pattern::parse(asked) {
        Ok(pattern) => match pattern.bucket() {
            Bucket::Octet(octet) => {
                add_word(out, b"octet");
                add_number(out, u64::from(octet));
            }
            Bucket::Every => add_word(out, b"every"),
        },
        Err(fault) => tell_pattern_fault(fault, out),
    }
}

// The words of the texts between such bytes. A word that begins with a quote was quoted.
fn words_of(alloc: Global, texts: &[u8], between: u8) -> Result<Vec<Word>, NoMemory> {
    let mut words = Vec::new(alloc);
    if texts.is_empty() {
        return Ok(words);
    }
    for text in texts.split(|byte| *byte == between) {
        let (quoted, text) = match text {
            [b'"', rest @ ..] => (true, rest),
            _ => (false, text),
        };
        let text = Octets::copy(alloc, text)?;
        words.push(Word { text, quoted })?;
    }
    Ok(words)
}

/// `list ADDRESS NAME PATTERN .. => yes`: whether the list matches.
pub(crate) fn tell_list(alloc: Global, asked: &[u8], out: &mut Told) -> Result<(), NoMemory> {
    let (addr, rest) = cut_word(asked);
    let (name, texts) = cut_word(rest);
    match PatternList::parse(alloc, &words_of(alloc, texts, b' ')?) {
        Ok(list) => {
            let matches = list_says(&list, &party_of(addr, name));
            tell_truth(matches, out);
        }
        Err(fault) => tell_list_fault(fault, out),
    }
    Ok(())
}

/// `words TEXT|TEXT|.. => N patterns`, or what is wrong.
pub(crate) fn tell_words(alloc: Global, asked: &[u8], out: &mut Told) -> Result<(), NoMemory> {
    match PatternList::parse(alloc, &words_of(alloc, asked, b'|')?) {
        Ok(list) => {
            add_number(out, list.texts().len() as u64);
            add_word(out, b"patterns");
        }
        Err(fault) => tell_list_fault(fault, out),
    }
    Ok(())
}

/// `single PATTERN ADDRESS NAME => N TEXT no`: the list of this one pattern, and whether it matches.
pub(crate) fn tell_single(alloc: Global, asked: &[u8], out: &mut Told) -> Result<(), NoMemory> {
    let (text, rest) = cut_word(asked);
    let (addr, name) = cut_word(rest);
    let pattern = match Pattern::parse(text) {
        Ok(pattern) => pattern,
        Err(fault) => {
            tell_pattern_fault(fault, out);
            return Ok(());
        }
    };
    let list = PatternList::of(alloc, &pattern)?;
    add_number(out, list.texts().len() as u64);
    for text in list.texts() {
        add_word(out, text.bytes());
    }
    let matches = list_says(&list, &party_of(addr, name));
    tell_truth(matches, out);
    Ok(())
}
