//! The text of a dictionary, taken from its source.
ghost use Rattle.std.specs.Prelude.{◌≡◌, ◌≢◌, ◌<◌, ◌≤◌, ◌++◌, ◌⊎◌, length, take, IfOk, IfErr, OnOk, OnErr};
ghost use Rattle.std.specs.Bool.{OnTrue, OnFalse};
ghost use Rattle.fw_outside.specs.LineReaderView.{TookBytes};
ghost use Rattle.fw_outside.specs.SourceView.{Broke, CameToEnd, Idled};
ghost use Rattle.fw_outside.specs.ToldList.{IsOver};
ghost use Rattle.otp_words.specs.Taking.{TookFront};
ghost use Rattle.otp_words.specs.Gathering.{TookPiece};

use crate::dict_fault::DictFault;
use arrayvec::ArrayVec;
use fw_outside::{Got, Source};
use fw_types::append;

/// One byte more than the longest dictionary has: 2,048 words of 4 letters, each with CR and LF.
pub(crate) const MOST: usize = 12_289;

// Takes the next bytes, and tells whether there were any.
fn take_more<S: Source>(from: &mut S, text: &mut ArrayVec<u8, MOST>) -> Result<bool, DictFault>
    requires { length text.old.items < 12289 }
    ensures ok { IfOk result (λ more. TookPiece more text.old.items text.new.items (S.source_view from.old) (S.source_view from.new)) }
    ensures fault { IfErr result (λ e. e ≡ DictFault.ReadFault) }
    ensures stopped { OnErr result (Broke (S.source_view from.old) (S.source_view from.new) ⊎
        Idled (S.source_view from.old) (S.source_view from.new)) }
{
    let mut buffer = [0; 4096];
    let most = text.remaining_capacity().min(4096);
    match from.take(&mut buffer[..most]) {
        Ok(Got::Bytes(count)) => {
            append(text, &buffer[..count]);
            Ok(true)
        }
        Ok(Got::End) => Ok(false),
        Ok(Got::Idle) | Err(_) => Err(DictFault::ReadFault),
    }
}

/// The text that is left in a source, or as much of it as shows that it is no dictionary.
pub(crate) fn gather<S: Source>(from: &mut S) -> Result<ArrayVec<u8, MOST>, DictFault>
    ensures took { IfOk result (λ text. TookBytes text.items (S.source_view from.old) (S.source_view from.new)) }
    ensures few { IfOk result (λ text. length text.items ≤ 12289) }
    ensures whole { IfOk result (λ text. length text.items < 12289 → IsOver (S.source_view from.new).left) }
    ensures fault { IfErr result (λ e. e ≡ DictFault.ReadFault) }
    ensures stopped { OnErr result (TookFront (S.source_view from.old) (S.source_view from.new)) }
{
    let mut text = ArrayVec::new();
    while !text.is_full() {
        if !take_more(from, &mut text)? {
            return Ok(text);
        }
    }
    Ok(text)
}
