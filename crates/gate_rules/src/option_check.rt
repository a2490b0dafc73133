//! Whether the options of a line can be read, told without memory.
ghost use Rattle.std.specs.Prelude.{◌≡◌, ◌||◌};
ghost use Rattle.gate_rules.specs.Faults.{is_target, target_among};
ghost use Rattle.gate_rules.specs.Lists.{mapped};
ghost use Rattle.gate_rules.specs.Options.{exec_option, option_at, option_if_known, option_of_kind};

use crate::lists::patterns_in_fault;
use crate::option_kind::{OptionKind, option_kind_of};
use crate::parsed_option::{ParsedOption, auth_of, deny_of, log_of, port_in, target_of, width_at};
use crate::words::{from, is_option};
use crate::{Service, Why};
use host_pattern::Word;

// Whether an option is a target.
fn told(option: Result<ParsedOption, Why>) -> Result<bool, Why>
    ensures { result ≡ mapped is_target option }
{
    match option {
        Ok(option) => Ok(is_target(&option)),
        Err(why) => Err(why),
    }
}

fn is_target(option: &ParsedOption) -> bool
    ensures { result ≡ is_target option.now }
{
    match option {
        ParsedOption::PlugTo(_) => true,
        _ => false,
    }
}

fn exec_check(words: &[Word]) -> Result<bool, Why>
    ensures { result ≡ mapped is_target (exec_option words.now) }
{
    match words {
        [] => Err(Why::MissingValue),
        [_, ..] => Ok(false),
    }
}

#[tactic(auto, using(crate::proofs::OptionCheckLemmas::no_list_fault, crate::proofs::OptionCheckLemmas::list_fault))]
fn dest_check(words: &[Word]) -> Result<bool, Why>
    ensures { result ≡ mapped is_target (option_of_kind OptionKind.Dest words.now) }
{
    match patterns_in_fault(words) {
        None => Ok(false),
        Some(why) => Err(why),
    }
}

// Whether an option of this kind, with the words after it, is a target.
fn check_kind(kind: OptionKind, words: &[Word]) -> Result<bool, Why>
    ensures { result ≡ mapped is_target (option_of_kind kind words.now) }
{
    match kind {
        OptionKind::Exec => exec_check(words),
        OptionKind::Dest => dest_check(words),
        OptionKind::Auth => Ok(false),
        OptionKind::AuthVerbs => told(auth_of(words)),
        OptionKind::AuthAll => Ok(false),
        OptionKind::Extnd => Ok(false),
        OptionKind::Deny => told(deny_of(words)),
        OptionKind::Log => told(log_of(words)),
        OptionKind::PlugTo => told(target_of(words)),
        OptionKind::Port => told(port_in(words)),
    }
}

fn check_known(kind: Option<OptionKind>, words: &[Word]) -> Result<bool, Why>
    ensures { result ≡ mapped is_target (option_if_known kind words.now) }
{
    match kind {
        Some(kind) => check_kind(kind, words),
        None => Err(Why::UnknownOption),
    }
}

// Whether the option that a word is, with the words after it, is a target.
#[tactic(auto, unfolding(crate::specs::Options::option_at))]
fn check_at(service: &Service, word: &Word, words: &[Word]) -> Result<bool, Why>
    ensures { result ≡ mapped is_target (option_at service.now word.now words.now) }
{
    if !is_option(word) {
        return Err(Why::BadWord);
    }
    check_known(option_kind_of(service, word.text.bytes()), words)
}

fn one_of(some: bool, other: bool) -> bool
    ensures { result ≡ (some || other) }
{
    some || other
}

// Whether there is a target among the options that these words are, or why they can't be read.
pub(crate) fn target_among(service: &Service, words: &[Word]) -> Result<bool, Why>
    ensures { result ≡ target_among service.now words.now }
{
    let mut has = false;
    let mut at = 0;
    while at < words.len() {
        let word = &words[at];
        let after = from(words, at + 1);
        let target = match check_at(service, word, after) {
            Ok(target) => target,
            Err(why) => return Err(why),
        };
        has = one_of(has, target);
        at += 1 + width_at(service, word, after);
    }
    Ok(has)
}
