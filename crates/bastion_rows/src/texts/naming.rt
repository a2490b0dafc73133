//! What a run comes to, by its name.

use bastion::{Device, OtpRefusal, Outcome, Refusal, Step};
use fw_types::{Ending, Name};
use gate_rules::{RuleFault, Why};
use lines_of_rows::{cut_word, number_of};
use netperm_table::TableFault;
use otp_words::{DictFault, WordsFault};

/// The number that the digits are, or 0 where it is too large.
pub(crate) fn number_32(digits: &[u8]) -> u32 {
    u32::try_from(number_of(digits)).unwrap_or(0)
}

// The place that the digits are, or 0 where it is too large.
fn place(digits: &[u8]) -> usize {
    usize::try_from(number_of(digits)).unwrap_or(0)
}

/// The ending of this name; that of a denied client is by line 3.
pub(crate) fn ending_of(name: &[u8]) -> Option<Ending> {
    match name {
        b"Done" => Some(Ending::Done),
        b"Denied" => Some(Ending::Denied { line: 3 }),
        b"ClientFault" => Some(Ending::ClientFault),
        b"ServerFault" => Some(Ending::ServerFault),
        b"LogFault" => Some(Ending::LogFault),
        b"AuthFault" => Some(Ending::AuthFault),
        b"Idle" => Some(Ending::Idle),
        b"NoRoute" => Some(Ending::NoRoute),
        b"Spent" => Some(Ending::Spent),
        b"NoMemory" => Some(Ending::NoMemory),
        _ => None,
    }
}

fn device_of(name: &[u8]) -> Option<Device> {
    match name {
        b"Table" => Some(Device::Table),
        b"Output" => Some(Device::Output),
        b"Log" => Some(Device::Log),
        b"Records" => Some(Device::Records),
        b"Program" => Some(Device::Program),
        b"Mailer" => Some(Device::Mailer),
        b"Dictionary" => Some(Device::Dictionary),
        b"Input" => Some(Device::Input),
        _ => None,
    }
}

fn step_of(name: &[u8]) -> Option<Step> {
    match name {
        b"Start" => Some(Step::Start),
        b"Table" => Some(Step::Table),
        b"Rules" => Some(Step::Rules),
        b"Policy" => Some(Step::Policy),
        b"Records" => Some(Step::Records),
        b"Print" => Some(Step::Print),
        b"Slots" => Some(Step::Slots),
        b"Drill" => Some(Step::Drill),
        b"Round" => Some(Step::Round),
        b"Dictionary" => Some(Step::Dictionary),
        _ => None,
    }
}

// `line LINE`, `twice LINE`, `long` or `short` of a dictionary, `count`, `word PLACE` or `check` of six words, or `challenge`.
fn otp_refusal_of(what: &[u8], number: u32) -> Option<OtpRefusal> {
    let line = number;
    match what {
        b"line" => Some(OtpRefusal::Dictionary(DictFault::BadWord { line })),
        b"twice" => Some(OtpRefusal::Dictionary(DictFault::Twice { line })),
        b"long" => Some(OtpRefusal::Dictionary(DictFault::Long)),
        b"short" => Some(OtpRefusal::Dictionary(DictFault::Short { words: line })),
        b"challenge" => Some(OtpRefusal::Challenge),
        b"count" => Some(OtpRefusal::Words(WordsFault::Count)),
        b"word" => {
            let at = u8::try_from(number).unwrap_or(0);
            Some(OtpRefusal::Words(WordsFault::NoWord { at }))
        }
        b"check" => Some(OtpRefusal::Words(WordsFault::Check)),
        _ => None,
    }
}

// `long-line LINE` of a table, `open-brace LINE` of a rule, `record NAME AT`, `slot SLOT AT` or `otp WHAT NUMBER`.
fn refusal_of(word: &[u8], rest: &[u8]) -> Option<Refusal> {
    let (first, at) = cut_word(rest);
    let line = number_32(first);
    match word {
        b"long-line" => Some(Refusal::Table(TableFault::LongLine { line })),
        b"open-brace" => {
            let why = Why::OpenBrace;
            Some(Refusal::Rule(RuleFault { line, why }))
        }
        b"record" => {
            let name = Name::read(first)?;
            Some(Refusal::Record {
                name,
                at: place(at),
            })
        }
        b"otp" => otp_refusal_of(first, number_32(at)).map(Refusal::Otp),
        b"slot" => {
            let at = number_of(at);
            Some(Refusal::Slot { slot: line, at })
        }
        _ => None,
    }
}

/// `usage`, `device DEVICE`, `disk NUMBER`, `memory STEP`, `ended ENDING` or `refused ENDING`, or what can't be read.
pub(crate) fn outcome_of(asked: &[u8]) -> Option<Outcome> {
    let (word, rest) = cut_word(asked);
    match word {
        b"usage" => Some(Outcome::Usage),
        b"device" => device_of(rest).map(Outcome::Failed),
        b"disk" => Some(Outcome::Failed(Device::Disk(place(rest)))),
        b"memory" => step_of(rest).map(Outcome::NoMemory),
        b"ended" | b"refused" => {
            let ending = ending_of(rest)?;
            let refused = word == b"refused".as_slice();
            Some(Outcome::Ended { ending, refused })
        }
        _ => refusal_of(word, rest).map(Outcome::Unread),
    }
}
