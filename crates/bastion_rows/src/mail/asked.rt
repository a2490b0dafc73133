//! What a row asks for: `WORDS!TABLE!SLOTS!CLIENT`, the words of the command line, the table, the slots, and what the client
//! says. In the table `|` stands for the end of a line, and in what the client says `^` for CR LF. The slots stand between
//! commas: `f` a free one, `w` one with a message, `a` one whose message was set aside, or the digits of its bytes.

use fw_types::{NoMemory, Octets};
use lines_of_rows::{cut, from_hex};
use std::alloc::Global;
use std::str;

/// A run that is asked for.
#[derive(Clone, Copy)]
pub(crate) struct Asked<'a> {
    pub(crate) words: &'a [u8],
    pub(crate) table: &'a [u8],
    pub(crate) slots: &'a [u8],
    pub(crate) client: &'a [u8],
}

impl<'a> Asked<'a> {
    pub(crate) fn of(text: &'a [u8]) -> Asked<'a> {
        let (words, rest) = cut(text, b'!');
        let (table, rest) = cut(rest, b'!');
        let (slots, client) = cut(rest, b'!');
        Asked {
            words,
            table,
            slots,
            client,
        }
    }
}

/// The bytes of a slot.
pub(crate) fn slot_of(alloc: Global, word: &[u8]) -> Result<Octets, NoMemory> {
    let digits: &[u8] = match word {
        b"f" => b"0000",
        b"w" => b"01004657533100000000000000050001000361406200036340646162630d0a",
        b"a" => b"01014657533100000000000000050001000361406200036340646162630d0a",
        digits => digits,
    };
    let bytes = from_hex(alloc, str::from_utf8(digits).unwrap_or(""))?;
    Ok(Octets::of(bytes))
}

/// A text, in which these bytes stand for those.
pub(crate) fn text_with(
    alloc: Global,
    text: &[u8],
    mark: u8,
    meant: &[u8],
) -> Result<Octets, NoMemory> {
    let mut bytes = Vec::new(alloc);
    for byte in text {
        if *byte == mark {
            bytes.extend_from_slice(meant)?;
        } else {
            bytes.push(*byte)?;
        }
    }
    Ok(Octets::of(bytes))
}
