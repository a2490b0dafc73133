//! Reading one field from the front of the bytes: what was read, and the bytes after it.
ghost use Rattle.std.specs.Prelude.{◌≡◌, ◌≤◌, ◌<◌, ℕ, Bool, length, IsTrue, IfOk, Some};
ghost use Rattle.std.specs.List.{prefix_len};
ghost use Rattle.fw_types.specs.Name.{is_name};
ghost use Rattle.auth_records.specs.Texts.{is_printable, is_long_name, is_seed, is_seed_byte};
ghost use Rattle.byte_reader.specs.Reading.{IsReadAs, counted_at};
ghost use Rattle.auth_records.specs.Reading.{small_number_at, name_byte, name_at, long_at, group_at, seed_at};

use crate::long_name::is_printable;
use crate::seed::is_seed_byte;
use crate::{LongName, Seed};
use byte_reader::{Stop, byte_of, text_of};
use fw_types::{Name, is_name_byte};

/// A number of at most 9,999 in four bytes.
#[tactic(auto, unfolding(crate::specs::Reading::small_number_at))]
pub(crate) fn small_number_of(bytes: &[u8]) -> Result<(u32, &[u8]), Stop>
    ensures gives { IsReadAs (λ x. (x.0, x.1.now)) result (small_number_at bytes.now) }
    ensures range { IfOk result (λ x. x.0 ≤ 9999) }
{
    let (_, rest) = byte_of(0, 0, bytes)?;
    let (_, rest) = byte_of(0, 0, rest)?;
    let (third, rest) = byte_of(0, 39, rest)?;
    let most = if third == 39 { 15 } else { 255 };
    let (fourth, rest) = byte_of(0, most, rest)?;
    Ok((256 * third as u32 + fourth as u32, rest))
}

/// Whether the byte may stand in a name of this length: a dash alone is no name.
fn is_byte_of_name(len: u8, byte: u8) -> bool
    ensures { result ≡ name_byte len byte }
{
    is_name_byte(byte) && !(len == 1 && byte == b'-')
}

/// How many bytes at the front may stand in a name of this length.
fn name_bytes(len: u8, bytes: &[u8]) -> usize
    ensures count { result ≡ prefix_len (name_byte len) bytes.now }
    ensures within { result ≤ length bytes.now }
{
    bytes
        .iter()
        .take_while(|byte| is_byte_of_name(len, **byte))
        .count()
}

/// How many bytes at the front may stand in a long name.
fn printable_bytes(bytes: &[u8]) -> usize
    ensures count { result ≡ prefix_len is_printable bytes.now }
    ensures within { result ≤ length bytes.now }
{
    bytes.iter().take_while(|byte| is_printable(**byte)).count()
}

/// How many bytes at the front may stand in a seed.
fn seed_bytes(bytes: &[u8]) -> usize
    ensures count { result ≡ prefix_len is_seed_byte bytes.now }
    ensures within { result ≤ length bytes.now }
{
    bytes.iter().take_while(|byte| is_seed_byte(**byte)).count()
}

/// The text of a name of at least this length, behind its length in one byte.
#[tactic(auto, unfolding(byte_reader::specs::Reading::counted_at))]
fn name_text_of(least: u8, bytes: &[u8]) -> Result<(&[u8], &[u8]), Stop>
    requires { least ≤ 32 }
    ensures gives { IsReadAs (λ x. (x.0.now, x.1.now)) result (counted_at least 32 name_byte bytes.now) }
    ensures form { IfOk result (λ x. 0 < length x.0.now → IsTrue (is_name x.0.now)) }
    ensures least { IfOk result (λ x. least ≤ length x.0.now) }
{
    let (len, rest) = byte_of(least, 32, bytes)?;
    text_of(len as usize, name_bytes(len, rest), rest)
}

/// The name that a name's text is.
fn named(text: &[u8]) -> Name
    requires { IsTrue (is_name text.now) }
    ensures { result ≡ text.now }
{
    match Name::read(text) {
        Some(name) => name,
        None => unreachable!(),
    }
}

/// A name behind its length.
pub(crate) fn name_of(bytes: &[u8]) -> Result<(Name, &[u8]), Stop>
    ensures { IsReadAs (λ x. (x.0, x.1.now)) result (name_at bytes.now) }
{
    let (text, rest) = name_text_of(1, bytes)?;
    Ok((named(text), rest))
}

/// A group's name behind its length, which is 0 where there is no group.
#[tactic(auto, unfolding(crate::specs::Reading::group_at))]
pub(crate) fn group_of(bytes: &[u8]) -> Result<(Option<Name>, &[u8]), Stop>
    ensures { IsReadAs (λ x. (x.0, x.1.now)) result (group_at bytes.now) }
{
    let (text, rest) = name_text_of(0, bytes)?;
    if text.is_empty() {
        return Ok((None, rest));
    }
    Ok((Some(named(text)), rest))
}

/// The text of a long name behind its length.
#[tactic(auto, unfolding(byte_reader::specs::Reading::counted_at))]
fn long_text_of(bytes: &[u8]) -> Result<(&[u8], &[u8]), Stop>
    ensures gives { IsReadAs (λ x. (x.0.now, x.1.now)) result (long_at bytes.now) }
    ensures form { IfOk result (λ x. IsTrue (is_long_name x.0.now)) }
{
    let (len, rest) = byte_of(0, 64, bytes)?;
    text_of(len as usize, printable_bytes(rest), rest)
}

/// A long name behind its length.
pub(crate) fn long_of(bytes: &[u8]) -> Result<(LongName, &[u8]), Stop>
    ensures { IsReadAs (λ x. (x.0, x.1.now)) result (long_at bytes.now) }
{
    let (text, rest) = long_text_of(bytes)?;
    Ok((LongName::of(text), rest))
}

/// The text of a seed behind its length.
#[tactic(auto, unfolding(byte_reader::specs::Reading::counted_at))]
fn seed_text_of(bytes: &[u8]) -> Result<(&[u8], &[u8]), Stop>
    ensures gives { IsReadAs (λ x. (x.0.now, x.1.now)) result (seed_at bytes.now) }
    ensures form { IfOk result (λ x. IsTrue (is_seed x.0.now)) }
{
    let (len, rest) = byte_of(1, 16, bytes)?;
    text_of(len as usize, seed_bytes(rest), rest)
}

/// A seed behind its length.
pub(crate) fn seed_of(bytes: &[u8]) -> Result<(Seed, &[u8]), Stop>
    ensures { IsReadAs (λ x. (x.0, x.1.now)) result (seed_at bytes.now) }
{
    let (text, rest) = seed_text_of(bytes)?;
    Ok((Seed::of(text), rest))
}
