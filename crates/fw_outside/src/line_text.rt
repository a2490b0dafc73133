//! The text of a line that is being read, as far as it tells what the line is heard as.
ghost use Rattle.std.specs.Prelude.{◌≡◌, ◌==◌, All, ◌<◌, ◌≤◌, ◌+◌, ◌∷◌, [], ◌++◌, false, length, take, drop, IfSome, IfNone};
ghost use Rattle.std.specs.List.{list_any};
ghost use Rattle.std.specs.Str.Lines.{strip_carriage_return};
ghost use Rattle.fw_outside.specs.LineText.{IsText, most};
ghost use Rattle.fw_outside.specs.Lines.{is_lf};

use crate::Heard;
use arrayvec::ArrayVec;
use fw_types::{append, copy_of};
use memchr::memchr;
use std::marker::Model;

/// At most 514 bytes: one more than the longest line and its CR.
#[derive(Drop)]
pub(crate) struct LineText {
    bytes: ArrayVec<u8, 514>,
}

impl Model for LineText {
    ghost use Rattle.std.specs.Prelude.{ℕ, List};

    ghost Value = { List ℕ };

    ghost view = { λ text. text.bytes.items };
}

// The place of the first LF.
fn line_end(bytes: &[u8]) -> Option<usize>
    ensures some { IfSome result (λ at. bytes.now ≡ take at bytes.now ++ 10 ∷ drop (at + 1) bytes.now) }
    ensures short { IfSome result (λ at. at < length bytes.now) }
    ensures first { IfSome result (λ at. All (λ b. (b == 10) ≡ false) (take at bytes.now)) }
    ensures none { IfNone result (All (λ b. (b == 10) ≡ false) bytes.now) }
{
    memchr(b'\n', bytes)
}

// The bytes without the CR at their end, if they have one.
fn without_return(bytes: &[u8]) -> &[u8]
    ensures { result.now ≡ strip_carriage_return bytes.now }
{
    match bytes {
        [front @ .., b'\r'] => front,
        _ => bytes,
    }
}

impl LineText {
    pub(crate) fn new() -> LineText
        ensures { result ≡ [] }
    {
        LineText {
            bytes: ArrayVec::new(),
        }
    }

    // Keeps as many bytes as there is room for.
    fn keep(&mut self, bytes: &[u8])
        ensures { self.new ≡ take most (self.old ++ bytes.now) }
    {
        let count = self.bytes.remaining_capacity().min(bytes.len());
        append(&mut self.bytes, &bytes[..count]);
    }

    /// Gathers the bytes up to the first LF, and tells its place, or all of them.
    pub(crate) fn gather(&mut self, bytes: &[u8]) -> Option<usize>
        ensures some { IfSome result (λ at. bytes.now ≡ take at bytes.now ++ 10 ∷ drop (at + 1) bytes.now) }
        ensures short { IfSome result (λ at. at < length bytes.now) }
        ensures first { IfSome result (λ at. list_any is_lf (take at bytes.now) ≡ false) }
        ensures line { IfSome result (λ at. self.new ≡ take most (self.old ++ take at bytes.now)) }
        ensures none { IfNone result (list_any is_lf bytes.now ≡ false) }
        ensures all { IfNone result (self.new ≡ take most (self.old ++ bytes.now)) }
    {
        match line_end(bytes) {
            Some(at) => {
                self.keep(&bytes[..at]);
                Some(at)
            }
            None => {
                self.keep(bytes);
                None
            }
        }
    }

    /// What the line with this text is heard as.
    pub(crate) fn heard(&self) -> Heard
        ensures { IsText result self.now }
    {
        let line = without_return(self.bytes.as_slice());
        if line.len() > 512 {
            return Heard::TooLong;
        }
        Heard::Line(copy_of(line))
    }
}
