//! The hours in which a line about operations is open.
ghost use Rattle.std.specs.Prelude.{◌≡◌, ◌<◌, length};
ghost use Rattle.gate_rules.specs.Hours.{is_open_at, is_within};
ghost use Rattle.gate_rules.specs.Times.{hours_by, hours_fault, hours_said, is_hours, minutes_at, minutes_by, minutes_of, name_fault, time_fault};

use crate::Why;
use crate::words::is_option;
use fw_types::read_number;
use host_pattern::Word;

/// From which minute of a day to which other one a line about operations is open, each day, in UTC.
#[derive(Clone, Copy, Debug, PartialEq, Eq)]
pub struct Hours {
    /// The first minute at which it is open.
    pub from: u16,
    /// The first minute at which it is closed.
    pub to: u16,
}

fn is_within(from: u64, to: u64, minute: u64) -> bool
    ensures { result ≡ is_within from to minute }
{
    if from < to {
        return from <= minute && minute < to;
    }
    if to < from {
        return from <= minute || minute < to;
    }
    true
}

impl Hours {
    /// Whether the line is open at a moment, in seconds since 1970: from the minute `from` on and before the minute
    /// `to`, over midnight where `to` is the earlier one, and all day where both are the same.
    pub fn is_open(&self, now: u64) -> bool
        ensures { result ≡ is_open_at self.now now }
    {
        is_within(u64::from(self.from), u64::from(self.to), now % 86_400 / 60)
    }
}

// The minutes of the day at HHMM, read as one number.
fn minutes_at(clock: u64) -> Option<u16>
    ensures { result ≡ minutes_at clock }
{
    let hour = clock / 100;
    let minute = clock % 100;
    if hour < 24 && minute < 60 {
        Some((hour * 60 + minute) as u16)
    } else {
        None
    }
}

fn minutes_by(clock: Option<u64>) -> Option<u16>
    ensures { result ≡ minutes_by clock }
{
    match clock {
        Some(clock) => minutes_at(clock),
        None => None,
    }
}

// The minutes of the day that four digits HHMM are.
fn minutes_of(text: &[u8]) -> Option<u16>
    ensures { result ≡ minutes_of text.now }
{
    if text.len() != 4 {
        return None;
    }
    minutes_by(read_number(text))
}

fn is_hours(word: &Word) -> bool
    ensures { result ≡ is_hours word.now }
{
    is_option(word) && word.text.bytes() == b"-hours".as_slice()
}

// What is wrong with a word in the place of `-hours`.
fn name_fault(word: &Word) -> Option<Why>
    ensures { result ≡ name_fault word.now }
{
    if is_hours(word) {
        None
    } else {
        Some(Why::BadWord)
    }
}

// What is wrong with a word in the place of FROM or TO.
fn time_fault(word: &Word) -> Option<Why>
    ensures { result ≡ time_fault word.now }
{
    if minutes_of(word.text.bytes()).is_some() {
        None
    } else {
        Some(Why::BadNumber)
    }
}

// What is wrong with one word or two, or with none.
fn rest_fault(words: &[Word]) -> Option<Why>
    requires { length words.now < 3 }
    ensures { result ≡ hours_fault words.now }
{
    match words {
        [] => None,
        [word] => name_fault(word).or(Some(Why::MissingValue)),
        [word, from, ..] => name_fault(word)
            .or(time_fault(from))
            .or(Some(Why::MissingValue)),
    }
}

// What is wrong with the words after a host list.
pub(crate) fn hours_fault(mut words: &[Word]) -> Option<Why>
    ensures { result ≡ hours_fault words.entry.now }
{
    while let [word, from, to, more @ ..] = words {
        if let Some(why) = name_fault(word).or(time_fault(from)).or(time_fault(to)) {
            return Some(why);
        }
        words = more;
    }
    rest_fault(words)
}

fn hours_by(from: Option<u16>, to: Option<u16>) -> Option<Hours>
    ensures { result ≡ hours_by from to }
{
    match (from, to) {
        (Some(from), Some(to)) => Some(Hours { from, to }),
        _ => None,
    }
}

// What the words after a host list say, if nothing is wrong with them.
pub(crate) fn hours_said(words: &[Word]) -> Option<Hours>
    ensures { result ≡ hours_said words.now }
{
    match words {
        [_, from, to, ..] => hours_by(minutes_of(from.text.bytes()), minutes_of(to.text.bytes())),
        _ => None,
    }
}
