//! What is told of passwords in six words.

use arrayvec::ArrayVec;
use fw_memory::{Calls, MemSource};
use fw_types::{NoMemory, Octets};
use lines_of_rows::{
    Told, add, add_hex, add_number, add_word, cut, cut_word, number_of, numbers_of,
};
use otp_md5::read_hex;
use otp_words::{
    DictFault, Dictionary, SixWords, TaskFault, WordsFault, append_groups, hear_password,
    read_challenge,
};
use std::alloc::Global;

/// A dictionary of made-up words, with what is otherwise in it.
#[derive(Drop)]
struct Made<'a> {
    // How many words it has.
    count: u32,
    // The line that has another text, and that text.
    line: u32,
    text: &'a [u8],
    // Whether its lines end in CR LF.
    with_return: bool,
    // Whether its last line has no end.
    is_cut: bool,
    // What follows its lines.
    behind: &'a [u8],
    // The take at which the source fails, if there is one.
    fails: Option<u64>,
}

// `count N`, `line N TEXT`, `cr`, `cut`, `fails N` and `behind TEXT`, which is last.
fn made_of(asked: &[u8]) -> Made<'_> {
    let mut made = Made {
        count: 2048,
        line: 0,
        text: b"",
        with_return: false,
        is_cut: false,
        behind: b"",
        fails: None,
    };
    let mut rest = asked;
    for _ in 0..8u8 {
        let (word, more) = cut_word(rest);
        let (first, next) = cut_word(more);
        match word {
            b"count" => made.count = number_of(first).min(10_000) as u32,
            b"line" => {
                let (text, after) = cut_word(next);
                made.line = number_of(first).min(10_000) as u32;
                made.text = text;
                rest = after;
                continue;
            }
            b"fails" => made.fails = Some(number_of(first)),
            b"cr" => {
                made.with_return = true;
                rest = more;
                continue;
            }
            b"cut" => {
                made.is_cut = true;
                rest = more;
                continue;
            }
            b"behind" => {
                made.behind = more;
                return made;
            }
            _ => return made,
        }
        rest = next;
    }
    made
}

fn letter(number: u32) -> u8 {
    b'A' + (number % 16) as u8
}

// The word of this number: a letter from A to P for each of its four hexadecimal digits.
fn word_of(number: u32) -> [u8; 4] {
    [
        letter(number / 4096),
        letter(number / 256),
        letter(number / 16),
        letter(number),
    ]
}

fn text_of(alloc: Global, made: &Made) -> Result<Vec<u8>, NoMemory> {
    let mut text = Vec::new(alloc);
    for number in 0..made.count {
        if number + 1 == made.line {
            text.extend_from_slice(made.text)?;
        } else {
            text.extend_from_slice(&word_of(number))?;
        }
        if made.is_cut && number + 1 == made.count {
            continue;
        }
        if made.with_return {
            text.push(b'\r')?;
        }
        text.push(b'\n')?;
    }
    text.extend_from_slice(made.behind)?;
    Ok(text)
}

fn calls_of(alloc: Global, fails: Option<u64>) -> Result<Calls, NoMemory> {
    match fails {
        Some(call) => Calls::of(alloc, &[call]),
        None => Ok(Calls::none()),
    }
}

fn tell_fault(fault: DictFault, out: &mut Told) {
    match fault {
        DictFault::BadWord { line } => {
            add_word(out, b"bad-word");
            add_number(out, u64::from(line));
        }
        DictFault::Twice { line } => {
            add_word(out, b"twice");
            add_number(out, u64::from(line));
        }
        DictFault::Long => add_word(out, b"long"),
        DictFault::Short { words } => {
            add_word(out, b"short");
            add_number(out, u64::from(words));
        }
        DictFault::ReadFault => add_word(out, b"read-fault"),
        DictFault::NoMemory => add_word(out, b"no-memory"),
    }
}

fn read_at(
    alloc: Global,
    text: &[u8],
    piece: usize,
    fails: Option<u64>,
) -> Result<Result<Dictionary, DictFault>, NoMemory> {
    let bytes = Octets::copy(alloc, text)?;
    let fails = calls_of(alloc, fails)?;
    let mut source = MemSource::new(bytes, piece.max(1), fails, Calls::none());
    Ok(Dictionary::read(alloc, &mut source))
}

/// `dictionary CHANGE .. => ok`, or its fault: a dictionary of made-up words, with these changes, read in pieces of one byte,
/// of 7 and of 4,096, of which each that comes out otherwise than the last is told. The last is used from here on.
pub(crate) fn dictionary_of(
    alloc: Global,
    asked: &[u8],
    out: &mut Told,
) -> Result<Option<Dictionary>, NoMemory> {
    let made = made_of(asked);
    let text = text_of(alloc, &made)?;
    let whole = read_at(alloc, &text, 4096, made.fails)?;
    match &whole {
        Ok(_) => add_word(out, b"ok"),
        Err(fault) => tell_fault(*fault, out),
    }
    if made.fails.is_none() {
        for piece in [1, 7] {
            let other = read_at(alloc, &text, piece, None)?;
            if other.err() != whole.as_ref().err().copied() {
                add_word(out, b"in pieces otherwise");
            }
        }
    }
    Ok(whole.ok())
}

/// `spell PASSWORD => WORDS`: the six words.
pub(crate) fn tell_words(dictionary: &Dictionary, asked: &[u8], out: &mut Told) {
    let mut words = ArrayVec::new();
    match read_hex(asked) {
        Some(password) => {
            dictionary.words_of(password, &mut words);
            add(out, words.as_slice());
        }
        None => add(out, b"no password"),
    }
}

fn tell_read(read: Result<u64, WordsFault>, out: &mut Told) {
    match read {
        Ok(password) => add_hex(out, &password.to_be_bytes()),
        Err(WordsFault::Count) => add_word(out, b"count"),
        Err(WordsFault::NoWord { at }) => {
            add_word(out, b"word");
            add_number(out, u64::from(at));
        }
        Err(WordsFault::Check) => add_word(out, b"check"),
    }
}

/// `read TEXT => PASSWORD`, or why it is none.
pub(crate) fn tell_password(dictionary: &Dictionary, asked: &[u8], out: &mut Told) {
    tell_read(dictionary.read_words(asked), out);
}

/// `apart A|B|C|D|E|F => PASSWORD`, or why these six words are none.
pub(crate) fn tell_apart(dictionary: &Dictionary, asked: &[u8], out: &mut Told) {
    let (first, rest) = cut(asked, b'|');
    let (second, rest) = cut(rest, b'|');
    let (third, rest) = cut(rest, b'|');
    let (fourth, rest) = cut(rest, b'|');
    let (fifth, last) = cut(rest, b'|');
    let six = SixWords {
        first,
        second,
        third,
        fourth,
        fifth,
        last,
    };
    tell_read(dictionary.read_six(&six), out);
}

/// `asks TEXT => COUNT SEED`. `-` is none.
pub(crate) fn tell_asks(asked: &[u8], out: &mut Told) {
    match read_challenge(asked) {
        Some((number, seed)) => {
            add_number(out, u64::from(number));
            add_word(out, seed.text());
        }
        None => add(out, b"-"),
    }
}

/// `groups PASSWORD => DIGITS`.
pub(crate) fn tell_groups(asked: &[u8], out: &mut Told) {
    let mut text: ArrayVec<u8, 19> = ArrayVec::new();
    match read_hex(asked) {
        Some(password) => {
            append_groups(&mut text, password);
            add(out, text.as_slice());
        }
        None => add(out, b"no password"),
    }
}

fn tell_heard(
    alloc: Global,
    said: &[u8],
    piece: usize,
    fails: Calls,
    idle: Calls,
    out: &mut Told,
) -> Result<(), NoMemory> {
    let mut source = MemSource::new(Octets::copy(alloc, said)?, piece.max(1), fails, idle);
    match hear_password(&mut source) {
        Ok(password) => add_hex(out, &password.to_be_bytes()),
        Err(TaskFault::Challenge) => add_word(out, b"challenge"),
        Err(TaskFault::Failed) => add_word(out, b"failed"),
    }
    Ok(())
}

/// `hear TEXT => PASSWORD PASSWORD`, or `challenge`: what the lines of the text ask for, heard byte by byte and whole.
pub(crate) fn tell_hear(alloc: Global, asked: &[u8], out: &mut Told) -> Result<(), NoMemory> {
    tell_heard(alloc, asked, 1, Calls::none(), Calls::none(), out)?;
    tell_heard(alloc, asked, 4096, Calls::none(), Calls::none(), out)
}

/// `breaks CALL TEXT => .. ..`: the same whole, where the source fails at this take, and where nothing comes at it.
pub(crate) fn tell_breaks(alloc: Global, asked: &[u8], out: &mut Told) -> Result<(), NoMemory> {
    let (call, said) = cut_word(asked);
    let numbers = numbers_of(alloc, call)?;
    let fails = Calls::of(alloc, &numbers)?;
    tell_heard(alloc, said, 64, fails, Calls::none(), out)?;
    let idle = Calls::of(alloc, &numbers)?;
    tell_heard(alloc, said, 64, Calls::none(), idle, out)
}
