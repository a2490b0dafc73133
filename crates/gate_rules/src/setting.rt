//! Settings, and the lines that set them.
ghost use Rattle.std.specs.Prelude.{◌≡◌};
ghost use Rattle.gate_rules.specs.Settings.{is_same, number_in, place, set_to, truth_of, value_alone, value_of};

use crate::Why;
use fw_types::{in_range, read_number};
use host_pattern::Word;

/// What a line may set for a service.
#[derive(Clone, Copy, Debug, PartialEq, Eq)]
pub enum Setting {
    /// The seconds after which an idle client is given up, from 1 to 86,400.
    Timeout,
    /// The most bytes of a message, from 1 to 67,108,864.
    MaxBytes,
    /// The most recipients of a message, from 1 to 1,000.
    MaxRecip,
    /// The seconds that a user sleeps after too many failures, from 0 to 86,400.
    BadSleep,
    /// Whether unknown users are told so: 1 or 0.
    NoBogus,
}

/// What a line sets.
#[derive(Clone, Copy, Debug, PartialEq, Eq)]
pub struct Assigned {
    pub which: Setting,
    pub value: u64,
    pub line: u32,
}

fn place(which: Setting) -> u8
    ensures { result ≡ place which }
{
    match which {
        Setting::Timeout => 0,
        Setting::MaxBytes => 1,
        Setting::MaxRecip => 2,
        Setting::BadSleep => 3,
        Setting::NoBogus => 4,
    }
}

// Whether they are one.
pub(crate) fn is_same(one: Setting, other: Setting) -> bool
    ensures { result ≡ is_same one other }
{
    place(one) == place(other)
}

fn number_in(lowest: u64, highest: u64, text: &[u8]) -> Result<u64, Why>
    ensures { result ≡ number_in lowest highest text.now }
{
    in_range(lowest, highest, read_number(text)).ok_or(Why::BadNumber)
}

fn truth_of(text: &[u8]) -> Result<u64, Why>
    ensures { result ≡ truth_of text.now }
{
    if text == b"true".as_slice() {
        return Ok(1);
    }
    if text == b"false".as_slice() {
        return Ok(0);
    }
    Err(Why::BadWord)
}

fn value_of(which: Setting, text: &[u8]) -> Result<u64, Why>
    ensures { result ≡ value_of which text.now }
{
    match which {
        Setting::Timeout => number_in(1, 86_400, text),
        Setting::MaxBytes => number_in(1, 67_108_864, text),
        Setting::MaxRecip => number_in(1, 1_000, text),
        Setting::BadSleep => number_in(0, 86_400, text),
        Setting::NoBogus => truth_of(text),
    }
}

fn value_alone(value: Result<u64, Why>, words: &[Word]) -> Result<u64, Why>
    ensures { result ≡ value_alone value words.now }
{
    match value {
        Err(why) => Err(why),
        Ok(value) => match words {
            [] => Ok(value),
            [_, ..] => Err(Why::BadWord),
        },
    }
}

// The value that the words give to a setting.
pub(crate) fn set_to(which: Setting, words: &[Word]) -> Result<u64, Why>
    ensures { result ≡ set_to which words.now }
{
    match words {
        [] => Err(Why::MissingValue),
        [word, more @ ..] => value_alone(value_of(which, word.text.bytes()), more),
    }
}
