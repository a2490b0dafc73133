//! The paths of mail.
ghost use Rattle.std.specs.Prelude.{◌≡◌, ◌≤◌, ◌<◌, length, count_by, position, ◌==◌, IfSome, IsTrue, option_map};
ghost use Rattle.std.specs.List.{list_all};
ghost use Rattle.smap_lines.specs.Path.{begins_badly, bracketed, closed_path, closed_at, is_allowed, is_bad_first, is_misfit, is_path_byte, is_special, opened_path, path_of};

use crate::blank::{all_blank, behind_blanks};
use arrayvec::ArrayVec;
use std::marker::Model;
use thiserror::Error;

// What may not stand in a path.
const SPECIAL: &[u8] = b"(),;:\\\"[]|<";

/// Why a text is no path: the first of these that applies.
#[derive(Clone, Copy, Debug, PartialEq, Eq, Error)]
pub enum PathFault {
    /// Not brackets alone with at most 256 bytes between them, or nothing between them where something has to be.
    #[error("no path in brackets of at most 256 bytes")]
    Syntax,
    /// It begins with `@`, `-`, `|` or `/`, holds a second `@`, or holds a byte that may not stand there.
    #[error("path that is not allowed")]
    NotAllowed,
}

/// A path of at most 256 bytes, without its brackets, none of whose bytes may be misread.
#[derive(Drop)]
pub struct Path {
    text: ArrayVec<u8, 256>,
}

impl Model for Path {
    ghost use Rattle.std.specs.Prelude.{ℕ, List, IsTrue};
    ghost use Rattle.smap_lines.specs.Path.{is_allowed};

    ghost Value = { List ℕ };

    ghost view = { λ path. path.text.items };

    ghost invariant = { λ path. IsTrue (is_allowed path.text.items) };
}

impl Path {
    /// Its bytes.
    pub fn text(&self) -> &[u8]
        ensures text { result.now ≡ self.now }
        ensures short { length self.now ≤ 256 }
        ensures allowed { IsTrue (is_allowed self.now) }
    {
        self.text.as_slice()
    }

    /// An equal path.
    pub fn twin(&self) -> Path
        ensures { result ≡ self.now }
    {
        Path {
            text: copy_of(self.text.as_slice()),
        }
    }
}

// What follows the `<` behind blanks.
fn opened_path(text: &[u8]) -> Option<&[u8]>
    ensures { option_map (λ r. r.now) result ≡ opened_path text.now }
{
    match text {
        [b'<', rest @ ..] => Some(rest),
        _ => None,
    }
}

fn place_of_close(text: &[u8]) -> Option<usize>
    ensures place { result ≡ position (λ b. b == 62) text.now }
    ensures within { IfSome result (λ at. at < length text.now) }
{
    text.iter().position(|byte| *byte == b'>')
}

// What stands before the `>` at this place, where only blanks follow it.
fn closed_at(text: &[u8], end: usize) -> Option<&[u8]>
    requires { end < length text.now }
    ensures { option_map (λ r. r.now) result ≡ closed_at text.now end }
{
    if all_blank(text.split_at(end + 1).1) {
        Some(text.split_at(end).0)
    } else {
        None
    }
}

// What stands before the first `>`, where only blanks follow it.
fn closed_path(text: &[u8]) -> Option<&[u8]>
    ensures { option_map (λ r. r.now) result ≡ closed_path text.now }
{
    match place_of_close(text) {
        Some(end) => closed_at(text, end),
        None => None,
    }
}

// What stands in brackets, with blanks before and behind them.
fn bracketed(text: &[u8]) -> Option<&[u8]>
    ensures { option_map (λ r. r.now) result ≡ bracketed text.now }
{
    match opened_path(behind_blanks(text)) {
        Some(rest) => closed_path(rest),
        None => None,
    }
}

fn is_misfit(path: &[u8], may_be_empty: bool) -> bool
    ensures { result ≡ is_misfit may_be_empty path.now }
{
    path.len() > 256 || (path.is_empty() && !may_be_empty)
}

fn is_bad_first(byte: u8) -> bool
    ensures { result ≡ is_bad_first byte }
{
    matches!(byte, b'@' | b'-' | b'|' | b'/')
}

fn is_special(byte: u8) -> bool
    ensures { result ≡ is_special byte }
{
    SPECIAL.contains(&byte)
}

fn begins_badly(path: &[u8]) -> bool
    ensures { result ≡ begins_badly path.now }
{
    match path {
        [] => false,
        [first, ..] => is_bad_first(*first),
    }
}

fn is_path_byte(byte: u8) -> bool
    ensures { result ≡ is_path_byte byte }
{
    33 <= byte && byte <= 126 && !is_special(byte)
}

fn has_path_bytes(path: &[u8]) -> bool
    ensures { result ≡ list_all is_path_byte path.now }
{
    path.iter().all(|byte| is_path_byte(*byte))
}

fn count_of_at(path: &[u8]) -> usize
    ensures { result ≡ count_by (λ b. b == 64) path.now }
{
    path.iter().filter(|byte| **byte == b'@').count()
}

fn is_allowed(path: &[u8]) -> bool
    ensures { result ≡ is_allowed path.now }
{
    !begins_badly(path) && count_of_at(path) <= 1 && has_path_bytes(path)
}

fn copy_of(path: &[u8]) -> ArrayVec<u8, 256>
    requires { length path.now ≤ 256 }
    ensures { result.items ≡ path.now }
{
    let mut copy = ArrayVec::new();
    if copy.try_extend_from_slice(path).is_err() {
        unreachable!();
    }
    copy
}

/// The path in a text, which is what follows the colon of `MAIL FROM:` or `RCPT TO:` (RFC 821, section 4.1.2). It
/// stands between `<` and the first `>` after it, with only blanks before and behind these.
///
/// # Errors
///
/// The first that applies: `Syntax` where no such brackets stand, for more than 256 bytes between them, and for none
/// where it may not be empty; `NotAllowed` where it begins with `@`, `-`, `|` or `/`, holds a second `@`, or holds a
/// byte that isn't 33 to 126 or is one of `( ) , ; : \ " [ ] |` and `<`.
pub fn read_path(text: &[u8], may_be_empty: bool) -> Result<Path, PathFault>
    ensures { result ≡ path_of may_be_empty text.now }
{
    let Some(path) = bracketed(text) else {
        return Err(PathFault::Syntax);
    };
    if is_misfit(path, may_be_empty) {
        return Err(PathFault::Syntax);
    }
    if !is_allowed(path) {
        return Err(PathFault::NotAllowed);
    }
    Ok(Path {
        text: copy_of(path),
    })
}
