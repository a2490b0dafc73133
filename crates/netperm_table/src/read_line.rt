//! One line of a table.
ghost use Rattle.std.specs.Prelude.{◌≡◌, ◌≢◌, ◌==◌, not, find, option_copied, IfOk, IfErr, Ok, Err};
ghost use Rattle.std.specs.List.{list_any};
ghost use Rattle.netperm_table.specs.Bytes.{is_blank, is_nul};
ghost use Rattle.netperm_table.specs.Reading.{is_skipped, line_for, line_with, reading};
ghost use Rattle.netperm_table.specs.Words.{keywords_of, with_word, word_of, words_of};

use crate::copying::read_words;
use crate::cut::cut_at;
use crate::keywords::{Keywords, Recent};
use crate::line::Line;
use crate::part::{OpenQuote, Part, is_blank, next_part};
use crate::table_fault::TableFault;
use fw_types::Octets;
use std::alloc::Global;

/// The greatest number of a line.
pub(crate) const LAST_LINE: u32 = 65_535;

/// The most bytes of a line, without its end.
pub(crate) const LONGEST: usize = 2048;

fn has_nul(bytes: &[u8]) -> bool
    ensures { result ≡ list_any is_nul bytes.now }
{
    cut_at(0, bytes).is_some()
}

// The first byte that isn't a blank.
fn first_of_text(bytes: &[u8]) -> Option<&u8>
    ensures { option_copied result ≡ find (λ b. not (is_blank b)) bytes.now }
{
    bytes.iter().find(|byte| !is_blank(**byte))
}

fn is_skipped(bytes: &[u8]) -> bool
    ensures { result ≡ is_skipped bytes.now }
{
    match first_of_text(bytes).copied() {
        None => true,
        Some(byte) => byte == b'#',
    }
}

// The line with these keywords, this attribute, and the words that follow it.
fn with_attribute(
    alloc: Global,
    number: u32,
    keywords: Keywords,
    part: &Part,
) -> Result<Option<Line>, TableFault>
    ensures ok { IfOk result (λ line. line_with number keywords (with_word (word_of part.now.text.now part.now.quoted)
        (words_of part.now.rest.now)) ≡ Ok line) }
    ensures err { IfErr result (λ e. e ≢ TableFault.NoMemory →
        line_with number keywords (with_word (word_of part.now.text.now part.now.quoted) (words_of part.now.rest.now))
        ≡ Err e) }
    ensures own { IfErr result (λ e. e ≢ TableFault.ReadFault) }
{
    let attribute = Octets::copy(alloc, part.text)?;
    match read_words(alloc, part.rest)? {
        None => Err(TableFault::OpenQuote { line: number }),
        Some(words) => Ok(Some(Line {
            number,
            keywords,
            attribute,
            words,
        })),
    }
}

// The line with these keywords, and these bytes after its colon.
fn with_words(
    alloc: Global,
    number: u32,
    keywords: Keywords,
    bytes: &[u8],
) -> Result<Option<Line>, TableFault>
    ensures ok { IfOk result (λ line. line_with number keywords (words_of bytes.now) ≡ Ok line) }
    ensures err { IfErr result (λ e. e ≢ TableFault.NoMemory → line_with number keywords (words_of bytes.now) ≡ Err e) }
    ensures own { IfErr result (λ e. e ≢ TableFault.ReadFault) }
{
    match next_part(bytes) {
        Err(OpenQuote) => Err(TableFault::OpenQuote { line: number }),
        Ok(None) => Err(TableFault::NoAttribute { line: number }),
        Ok(Some(part)) => with_attribute(alloc, number, keywords, &part),
    }
}

// The line with what stands before its colon, and what stands after it.
fn read_sides(
    alloc: Global,
    recent: &mut Recent,
    number: u32,
    front: &[u8],
    back: &[u8],
) -> Result<Option<Line>, TableFault>
    ensures ok { IfOk result (λ line. line_for number (keywords_of front.now) (words_of back.now) ≡ Ok line) }
    ensures err { IfErr result (λ e. e ≢ TableFault.NoMemory →
        line_for number (keywords_of front.now) (words_of back.now) ≡ Err e) }
    ensures own { IfErr result (λ e. e ≢ TableFault.ReadFault) }
{
    let keywords = recent.keywords(alloc, front)?;
    if keywords.is_empty() {
        return Err(TableFault::NoKeyword { line: number });
    }
    with_words(alloc, number, keywords, back)
}

/// The line with this number and these bytes, which are without its end: a line, nothing where it is skipped, or its
/// fault.
pub(crate) fn read_line(
    alloc: Global,
    recent: &mut Recent,
    number: u32,
    bytes: &[u8],
) -> Result<Option<Line>, TableFault>
    ensures ok { IfOk result (λ line. reading number bytes.now ≡ Ok line) }
    ensures err { IfErr result (λ e. e ≢ TableFault.NoMemory → reading number bytes.now ≡ Err e) }
    ensures own { IfErr result (λ e. e ≢ TableFault.ReadFault) }
{
    if number > LAST_LINE {
        return Err(TableFault::ManyLines);
    }
    if bytes.len() > LONGEST {
        return Err(TableFault::LongLine { line: number });
    }
    if has_nul(bytes) {
        return Err(TableFault::NulByte { line: number });
    }
    if is_skipped(bytes) {
        return Ok(None);
    }
    match cut_at(b':', bytes) {
        None => Err(TableFault::NoColon { line: number }),
        Some((front, back)) => read_sides(alloc, recent, number, front, back),
    }
}
