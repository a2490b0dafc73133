//! What a run comes to, with its status and its line in the log.
ghost use Rattle.std.specs.Prelude.{◌≡◌, ◌+◌, ◌≤◌, ◌++◌, length, codes, unwrap_or, MatchOption, None, Some};
ghost use Rattle.std.specs.Fmt.{decimal};
ghost use Rattle.arrayvec.specs.ArrayVec.{array_vec_len};
ghost use Rattle.bastion.specs.declared.outcome.Outcome.TheVariants as outcomes;
ghost use Rattle.bastion.specs.declared.outcome.Step.TheVariants as steps;
ghost use Rattle.bastion.specs.Outcome.{device_text, ending_status, fault_line_of, is_at_limit, line_text, record_text, refusal_text, slot_text, status_of, verdict_status};

use crate::otp_texts::append_otp;
use arrayvec::ArrayVec;
use client_service::LogLine;
use fw_types::{Ending, Name, NoMemory, append, append_decimal, append_u32};
use gate_rules::{RuleFault, Verdict};
use netperm_table::TableFault;
use otp_words::{DictFault, WordsFault};
use std::alloc::AllocFailed;

/// A device that a run was given, as a fault names it.
#[derive(Clone, Copy, Debug, PartialEq, Eq)]
pub enum Device {
    /// The files with the table.
    Table,
    /// Standard output.
    Output,
    /// The log.
    Log,
    /// The keeper of the records.
    Records,
    /// Who starts programs.
    Program,
    /// Who takes messages on.
    Mailer,
    /// The files with the dictionary.
    Dictionary,
    /// Standard input.
    Input,
    /// The disk of the slot with this number.
    Disk(usize),
}

/// At what memory was wanting.
#[derive(Clone, Copy, Debug, PartialEq, Eq)]
pub enum Step {
    /// Making the words and the devices, before the run.
    Start,
    /// Reading the table.
    Table,
    /// Reading the rules of the service.
    Rules,
    /// Reading what the authentication server goes by.
    Policy,
    /// Reading the records.
    Records,
    /// Making the text that is printed of a permission, and the words of the program to be started.
    Print,
    /// Opening the slots.
    Slots,
    /// Drawing the lines of a drill, reading them, and deciding.
    Drill,
    /// Reading a message that is handed on, or handing it over.
    Round,
    /// Reading the dictionary.
    Dictionary,
}

/// Why no password is told.
#[derive(Clone, Copy, Debug, PartialEq, Eq)]
pub enum OtpRefusal {
    /// The dictionary can't be read.
    Dictionary(DictFault),
    /// The input has no challenge and pass phrase.
    Challenge,
    /// The words are no password.
    Words(WordsFault),
}

/// The first thing that a command needs and that can't be read.
#[derive(Drop)]
pub enum Refusal {
    /// A line of the table.
    Table(TableFault),
    /// A line of the service, as a rule.
    Rule(RuleFault),
    /// The record of this name: `at` is the place of its first bad byte.
    Record { name: Name, at: usize },
    /// The slot of this number: `at` is the place of its first bad byte.
    Slot { slot: u32, at: u64 },
    /// What `otp-calc` and `otp-hex` need.
    Otp(OtpRefusal),
}

/// What a run comes to.
#[derive(Drop)]
pub enum Outcome {
    /// The words are no command.
    Usage,
    /// What the command needs can't be read.
    Unread(Refusal),
    /// A device failed.
    Failed(Device),
    /// There was no memory.
    NoMemory(Step),
    /// A command that needs no table did its work.
    Done,
    /// The rules decided, and that was told.
    Decided(Verdict),
    /// A session ended so, in which a request was refused or not since the history was full.
    Ended { ending: Ending, refused: bool },
}

fn append_device(out: &mut LogLine, device: Device)
    requires { array_vec_len out.old ≤ 400 }
    ensures items { out.new.items ≡ out.old.items ++ device_text device }
    ensures room { array_vec_len out.new ≤ array_vec_len out.old + 25 }
{
    match device {
        Device::Table => append(out, b"table"),
        Device::Output => append(out, b"output"),
        Device::Log => append(out, b"log"),
        Device::Records => append(out, b"records"),
        Device::Program => append(out, b"program"),
        Device::Mailer => append(out, b"mailer"),
        Device::Dictionary => append(out, b"dictionary"),
        Device::Input => append(out, b"input"),
        Device::Disk(slot) => {
            append(out, b"disk ");
            append_usize(out, slot);
        }
    }
}

// Appends the number of a line and what is wrong with it.
fn append_line(out: &mut LogLine, line: u32, why: &[u8])
    requires { array_vec_len out.old + length why.now ≤ 480 }
    ensures items { out.new.items ≡ out.old.items ++ line_text line why.now }
    ensures room { array_vec_len out.new ≤ array_vec_len out.old + length why.now + 17 }
{
    append(out, b" line ");
    append_u32(out, line);
    append(out, b" ");
    append(out, why);
}

// Appends a number in decimal.
fn append_u64(out: &mut LogLine, number: u64)
    requires { array_vec_len out.old ≤ 480 }
    ensures items { out.new.items ≡ out.old.items ++ decimal number }
    ensures room { array_vec_len out.new ≤ array_vec_len out.old + 20 }
{
    append_decimal(out, number);
}

/// Appends a number in decimal.
pub(crate) fn append_usize(out: &mut LogLine, number: usize)
    requires { array_vec_len out.old ≤ 480 }
    ensures items { out.new.items ≡ out.old.items ++ decimal number }
    ensures room { array_vec_len out.new ≤ array_vec_len out.old + 20 }
{
    append_u64(out, number as u64);
}

// Appends whose record can't be read, and the place of its first bad byte.
fn append_record(out: &mut LogLine, name: &Name, at: usize)
    requires { array_vec_len out.old ≤ 400 }
    ensures items { out.new.items ≡ out.old.items ++ record_text name.now at }
    ensures room { array_vec_len out.new ≤ array_vec_len out.old + 56 }
{
    append(out, name.text());
    append(out, b" at ");
    append_usize(out, at);
}

// Appends which slot can't be read, and the place of its first bad byte.
fn append_slot(out: &mut LogLine, slot: u32, at: u64)
    requires { array_vec_len out.old ≤ 400 }
    ensures items { out.new.items ≡ out.old.items ++ slot_text slot at }
    ensures room { array_vec_len out.new ≤ array_vec_len out.old + 44 }
{
    append_u64(out, u64::from(slot));
    append(out, b" at ");
    append_u64(out, at);
}

// Appends what can't be read.
fn append_refusal(out: &mut LogLine, refusal: &Refusal)
    requires { array_vec_len out.old ≤ 20 }
    ensures items { out.new.items ≡ out.old.items ++ refusal_text refusal.now }
    ensures room { array_vec_len out.new ≤ 500 }
{
    match refusal {
        Refusal::Table(fault) => {
            append(out, b"table");
            append_line(out, fault.line().unwrap_or(0), fault.why());
        }
        Refusal::Rule(fault) => {
            append(out, b"rule");
            append_line(out, fault.line, fault.why.text());
        }
        Refusal::Record { name, at } => {
            append(out, b"record ");
            append_record(out, name, *at);
        }
        Refusal::Slot { slot, at } => {
            append(out, b"slot ");
            append_slot(out, *slot, *at);
        }
        Refusal::Otp(refusal) => append_otp(out, *refusal),
    }
}

// The line of a run that came to no work.
fn refusal_line(refusal: &Refusal) -> LogLine
    ensures { result.items ≡ codes "fault " ++ refusal_text refusal.now ++ codes "\n" }
{
    let mut out = ArrayVec::new();
    append(&mut out, b"fault ");
    append_refusal(&mut out, refusal);
    append(&mut out, b"\n");
    out
}

fn device_line(device: Device) -> LogLine
    ensures { result.items ≡ codes "fault outside " ++ device_text device ++ codes "\n" }
{
    let mut out = ArrayVec::new();
    append(&mut out, b"fault outside ");
    append_device(&mut out, device);
    append(&mut out, b"\n");
    out
}

fn line_of(text: &[u8]) -> LogLine
    requires { length text.now ≤ 512 }
    ensures { result.items ≡ text.now }
{
    let mut out = ArrayVec::new();
    append(&mut out, text);
    out
}

/// The status of an ending.
pub fn ending_status(ending: Ending) -> u8
    ensures { result ≡ ending_status ending }
{
    match ending {
        Ending::Done => 0,
        Ending::Denied { .. } => 1,
        Ending::ClientFault => 4,
        Ending::ServerFault => 4,
        Ending::LogFault => 4,
        Ending::AuthFault => 4,
        Ending::Idle => 4,
        Ending::NoRoute => 4,
        Ending::Spent => 6,
        Ending::NoMemory => 5,
    }
}

fn verdict_status(verdict: Verdict) -> u8
    ensures { result ≡ verdict_status verdict }
{
    match verdict {
        Verdict::Permit { .. } => 0,
        Verdict::Deny { .. } => 1,
    }
}

// Whether a session was done, but a request of it was refused.
fn is_at_limit(ending: Ending, refused: bool) -> bool
    ensures { result ≡ is_at_limit ending refused }
{
    match ending {
        Ending::Done => refused,
        _ => false,
    }
}

fn ended_status(ending: Ending, refused: bool) -> u8
    ensures { result ≡ status_of (outcomes.Ended ending refused) }
{
    if is_at_limit(ending, refused) {
        return 6;
    }
    ending_status(ending)
}

fn limit_line(ending: Ending, refused: bool) -> Option<LogLine>
    ensures { MatchOption result (fault_line_of (outcomes.Ended ending refused) ≡ None) (λ line.
        fault_line_of (outcomes.Ended ending refused) ≡ Some line.items) }
{
    if is_at_limit(ending, refused) {
        return Some(line_of(b"fault limit\n"));
    }
    None
}

impl Outcome {
    /// The status with which the run ends.
    pub fn status(&self) -> u8
        ensures { result ≡ status_of self.now }
    {
        match self {
            Outcome::Usage => 2,
            Outcome::Unread(_) => 3,
            Outcome::Failed(_) => 4,
            Outcome::NoMemory(_) => 5,
            Outcome::Done => 0,
            Outcome::Decided(verdict) => verdict_status(*verdict),
            Outcome::Ended { ending, refused } => ended_status(*ending, *refused),
        }
    }

    /// The log's line of what went wrong, where something did that has no other line.
    pub fn fault_line(&self) -> Option<LogLine>
        ensures { MatchOption result (fault_line_of self.now ≡ None) (λ line. fault_line_of self.now ≡ Some line.items) }
    {
        match self {
            Outcome::Usage => Some(line_of(b"fault usage\n")),
            Outcome::Unread(refusal) => Some(refusal_line(refusal)),
            Outcome::Failed(device) => Some(device_line(*device)),
            Outcome::NoMemory(_) => Some(line_of(b"fault memory\n")),
            Outcome::Done => None,
            Outcome::Decided(_) => None,
            Outcome::Ended { ending, refused } => limit_line(*ending, *refused),
        }
    }
}

impl From<NoMemory> for Outcome {
    ghost from_gives = { λ _ e. e ≡ outcomes.NoMemory steps.Start };

    fn from(_: NoMemory) -> Outcome {
        Outcome::NoMemory(Step::Start)
    }
}

impl<T: Drop> From<AllocFailed<T>> for Outcome {
    ghost from_gives = { λ _ e. e ≡ outcomes.NoMemory steps.Start };

    fn from(_: AllocFailed<T>) -> Outcome {
        Outcome::NoMemory(Step::Start)
    }
}
