//! The line of the log.
ghost use Rattle.std.specs.Prelude.{◌≡◌, ◌≤◌, ◌++◌, codes, length};
ghost use Rattle.std.specs.Fmt.{decimal};
ghost use Rattle.arrayvec.specs.ArrayVec.{array_vec_len};
ghost use Rattle.smapd_queue.specs.Turns.{handed_line};
ghost use Rattle.smapd_queue.specs.Words.{text_of};

use crate::word::Word;
use arrayvec::ArrayVec;
use fw_types::{append, append_u32};

/// A line of the log.
pub(crate) type LogLine = ArrayVec<u8, 40>;

// Which slot was handed on.
fn whose(number: u32) -> LogLine
    ensures items { result.items ≡ (codes "handed slot " ++ decimal number) ++ codes " " }
    ensures room { array_vec_len result ≤ 23 }
{
    let mut out = ArrayVec::new();
    append(&mut out, b"handed slot ");
    append_u32(&mut out, number);
    append(&mut out, b" ");
    out
}

// The text of a word.
fn text(word: Word) -> &'static [u8]
    ensures value { result.now ≡ text_of word }
    ensures short { length result.now ≤ 8 }
{
    match word {
        Word::Accepted => b"accepted",
        Word::Refused => b"refused",
        Word::Failed => b"failed",
        Word::Broken => b"broken",
    }
}

/// What a turn came to that took the slot of this number.
pub(crate) fn handed_line(number: u32, word: Word) -> LogLine
    ensures { result.items ≡ handed_line number (text_of word) }
{
    let mut out = whose(number);
    append(&mut out, text(word));
    append(&mut out, b"\n");
    out
}
