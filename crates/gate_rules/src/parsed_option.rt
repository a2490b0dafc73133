//! One option of a line with its value.
ghost use Rattle.std.specs.Prelude.{◌≡◌, ◌≤◌, ◌+◌, length, map, Ok, IfOk};
ghost use Rattle.std.specs.Result.{result_copied};
ghost use Rattle.gate_rules.specs.declared.parsed_option.ParsedOption.TheVariants as is;
ghost use Rattle.gate_rules.specs.Lists.{mapped};
ghost use Rattle.gate_rules.specs.Options.{exec_option, option_if_known, option_of_kind, target_option, option_at, port_by, port_in, target_of, width_as, width_at, width_by};

use crate::lists::{Reading, patterns_in, verbs_in};
use crate::option_kind::{OptionKind, option_kind_of};
use crate::words::{is_option, list_width};
use crate::{Service, Why};
use fw_types::{Host, NoMemory, Octets, OctetsList, VerbList, read_port};
use host_pattern::{PatternList, Word};
use std::alloc::Global;

/// An option with its value.
#[derive(Drop)]
pub enum ParsedOption {
    Exec(OctetsList),
    Dest(PatternList),
    Auth(VerbList),
    AuthAll,
    Extnd,
    Deny(VerbList),
    Log(VerbList),
    PlugTo(Host),
    Port(u16),
}

fn texts_of(alloc: Global, words: &[Word]) -> Result<OctetsList, NoMemory>
    ensures { IfOk result (λ texts. texts ≡ map (λ w. w.text) words.now) }
{
    let mut texts = OctetsList::new(alloc);
    for word in words {
        let text = Octets::copy(alloc, word.text.bytes())?;
        if texts.push(text).is_err() {
            return Err(NoMemory);
        }
    }
    Ok(texts)
}

fn exec_option(alloc: Global, words: &[Word]) -> Reading<ParsedOption>
    ensures { IfOk result (λ read. read ≡ exec_option words.now) }
{
    match words {
        [] => Ok(Err(Why::MissingValue)),
        [_, ..] => Ok(Ok(ParsedOption::Exec(texts_of(alloc, words)?))),
    }
}

fn dest_of(alloc: Global, words: &[Word]) -> Reading<ParsedOption>
    ensures { IfOk result (λ read. read ≡ option_of_kind OptionKind.Dest words.now) }
{
    match patterns_in(alloc, words)? {
        Ok(patterns) => Ok(Ok(ParsedOption::Dest(patterns))),
        Err(why) => Ok(Err(why)),
    }
}

pub(crate) fn auth_of(words: &[Word]) -> Result<ParsedOption, Why>
    ensures { result ≡ option_of_kind OptionKind.AuthVerbs words.now }
{
    match verbs_in(words) {
        Ok(verbs) => Ok(ParsedOption::Auth(verbs)),
        Err(why) => Err(why),
    }
}

pub(crate) fn deny_of(words: &[Word]) -> Result<ParsedOption, Why>
    ensures { result ≡ option_of_kind OptionKind.Deny words.now }
{
    match verbs_in(words) {
        Ok(verbs) => Ok(ParsedOption::Deny(verbs)),
        Err(why) => Err(why),
    }
}

pub(crate) fn log_of(words: &[Word]) -> Result<ParsedOption, Why>
    ensures { result ≡ option_of_kind OptionKind.Log words.now }
{
    match verbs_in(words) {
        Ok(verbs) => Ok(ParsedOption::Log(verbs)),
        Err(why) => Err(why),
    }
}

fn target_option(host: Option<Host>) -> Result<ParsedOption, Why>
    ensures { result ≡ target_option host }
{
    match host {
        Some(host) => Ok(ParsedOption::PlugTo(host)),
        None => Err(Why::BadWord),
    }
}

pub(crate) fn target_of(words: &[Word]) -> Result<ParsedOption, Why>
    ensures { result ≡ target_of words.now }
{
    match words {
        [] => Err(Why::MissingValue),
        [word, ..] => target_option(Host::read(word.text.bytes())),
    }
}

fn port_by(port: Option<u16>) -> Result<ParsedOption, Why>
    ensures { result ≡ port_by port }
{
    match port {
        Some(port) => Ok(ParsedOption::Port(port)),
        None => Err(Why::BadNumber),
    }
}

pub(crate) fn port_in(words: &[Word]) -> Result<ParsedOption, Why>
    ensures { result ≡ port_in words.now }
{
    match words {
        [] => Err(Why::MissingValue),
        [word, ..] => port_by(read_port(word.text.bytes())),
    }
}

// The option of this kind, with the words after it.
fn option_of_kind(alloc: Global, kind: OptionKind, words: &[Word]) -> Reading<ParsedOption>
    ensures { IfOk result (λ read. read ≡ option_of_kind kind words.now) }
{
    match kind {
        OptionKind::Exec => exec_option(alloc, words),
        OptionKind::Dest => dest_of(alloc, words),
        OptionKind::Auth => Ok(Ok(ParsedOption::Auth(VerbList::new()))),
        OptionKind::AuthVerbs => Ok(auth_of(words)),
        OptionKind::AuthAll => Ok(Ok(ParsedOption::AuthAll)),
        OptionKind::Extnd => Ok(Ok(ParsedOption::Extnd)),
        OptionKind::Deny => Ok(deny_of(words)),
        OptionKind::Log => Ok(log_of(words)),
        OptionKind::PlugTo => Ok(target_of(words)),
        OptionKind::Port => Ok(port_in(words)),
    }
}

// How many of the words are its value.
fn width_by(kind: OptionKind, words: &[Word]) -> usize
    ensures width { result ≡ width_by kind words.now }
    ensures within { result ≤ length words.now + 1 }
{
    match kind {
        OptionKind::Exec => words.len(),
        OptionKind::Auth | OptionKind::AuthAll | OptionKind::Extnd => 0,
        OptionKind::Dest | OptionKind::AuthVerbs | OptionKind::Deny | OptionKind::Log => list_width(
            words,
        ),
        OptionKind::PlugTo | OptionKind::Port => 1,
    }
}

fn option_if_known(alloc: Global, kind: Option<OptionKind>, words: &[Word]) -> Reading<ParsedOption>
    ensures { IfOk result (λ read. read ≡ option_if_known kind words.now) }
{
    match kind {
        Some(kind) => option_of_kind(alloc, kind, words),
        None => Ok(Err(Why::UnknownOption)),
    }
}

// The option that a word is, with the words after it.
#[tactic(auto, unfolding(crate::specs::Options::option_at))]
pub(crate) fn option_at(
    alloc: Global,
    service: &Service,
    word: &Word,
    words: &[Word],
) -> Reading<ParsedOption>
    ensures { IfOk result (λ read. read ≡ option_at service.now word.now words.now) }
{
    if !is_option(word) {
        return Ok(Err(Why::BadWord));
    }
    option_if_known(alloc, option_kind_of(service, word.text.bytes()), words)
}

fn width_as(kind: Option<OptionKind>, words: &[Word]) -> usize
    ensures width { result ≡ width_as kind words.now }
    ensures within { result ≤ length words.now + 1 }
{
    match kind {
        Some(kind) => width_by(kind, words),
        None => 0,
    }
}

// How many of the words are the value of the option that a word is.
#[tactic(auto, unfolding(crate::specs::Options::width_at))]
pub(crate) fn width_at(service: &Service, word: &Word, words: &[Word]) -> usize
    ensures width { result ≡ width_at service.now word.now words.now }
    ensures within { result ≤ length words.now + 1 }
{
    width_as(option_kind_of(service, word.text.bytes()), words)
}
