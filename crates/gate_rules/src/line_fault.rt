//! Why a line can't be read, told without memory.
ghost use Rattle.std.specs.Prelude.{◌≡◌, ℕ, List, ◌∷◌, filter};
ghost use Rattle.std.specs.Option.{option_or};
ghost use Rattle.std.specs.Result.{result_err};
ghost use Rattle.netperm_table.specs.declared.line.Line.{Line};
ghost use Rattle.gate_rules.specs.Faults.{numbered, target_fault};
ghost use Rattle.gate_rules.specs.Options.{options_of};
ghost use Rattle.gate_rules.specs.Reading.{book_of, deny_effect, effect_as, effect_of, is_of, permit_effect, plug_effect, port_effect, setting_effect, with_target};

use crate::attribute::{Attribute, attribute_of};
use crate::lists::{hosts_alone_fault, patterns_fault};
use crate::operation::operation_fault;
use crate::option_check::target_among;
use crate::reading::is_of;
use crate::setting::set_to;
use crate::words::{hosts_in, options_in};
use crate::{RuleFault, Service, Setting, Why};
use fw_types::read_port;
use host_pattern::Word;
use netperm_table::Line;

#[tactic(auto, using(crate::proofs::LineFaultLemmas::options_bad, crate::proofs::LineFaultLemmas::options_good))]
fn options_fault(service: &Service, words: &[Word]) -> Option<Why>
    ensures { (port : ℕ) → result ≡ result_err (options_of service.now port words.now) }
{
    match target_among(service, words) {
        Ok(_) => None,
        Err(why) => Some(why),
    }
}

#[tactic(auto, using(crate::proofs::LineFaultLemmas::ruled_fault))]
fn permit_fault(service: &Service, words: &[Word]) -> Option<Why>
    ensures { (number : ℕ) → result ≡ result_err (permit_effect service.now number words.now) }
{
    patterns_fault(hosts_in(words)).or(options_fault(service, options_in(words)))
}

#[tactic(auto, using(crate::proofs::LineFaultLemmas::denied_fault))]
fn deny_fault(words: &[Word]) -> Option<Why>
    ensures { (number : ℕ) → result ≡ result_err (deny_effect number words.now) }
{
    hosts_alone_fault(words)
}

// What is wrong with options that must have a target, by whether they have one.
fn target_fault(has: Result<bool, Why>) -> Option<Why>
    ensures { result ≡ target_fault has }
{
    match has {
        Ok(true) => None,
        Ok(false) => Some(Why::MissingValue),
        Err(why) => Some(why),
    }
}

#[tactic(auto, using(crate::proofs::LineFaultLemmas::plug_fault))]
fn plug_fault(service: &Service, port: Option<u16>, words: &[Word]) -> Option<Why>
    ensures { (number : ℕ) → result ≡ result_err (plug_effect service.now number port words.now) }
{
    if port.is_none() {
        return Some(Why::BadNumber);
    }
    let options = target_fault(target_among(service, options_in(words)));
    patterns_fault(hosts_in(words)).or(options)
}

fn port_fault(service: &Service, words: &[Word]) -> Option<Why>
    ensures { (number : ℕ) → result ≡ result_err (port_effect service.now number words.now) }
{
    match words {
        [] => Some(Why::MissingValue),
        [word, more @ ..] => plug_fault(service, read_port(word.text.bytes()), more),
    }
}

fn setting_fault(which: Setting, words: &[Word]) -> Option<Why>
    ensures { (number : ℕ) → result ≡ result_err (setting_effect which number words.now) }
{
    match set_to(which, words) {
        Ok(_) => None,
        Err(why) => Some(why),
    }
}

#[tactic(auto, using(crate::proofs::LineFaultLemmas::mapped_fault))]
fn fault_as(attribute: Attribute, service: &Service, words: &[Word]) -> Option<Why>
    ensures { (number : ℕ) → result ≡ result_err (effect_as attribute service.now number words.now) }
{
    match attribute {
        Attribute::Permit => permit_fault(service, words),
        Attribute::Deny => deny_fault(words),
        Attribute::Port => port_fault(service, words),
        Attribute::Sets(which) => setting_fault(which, words),
        Attribute::Operation => operation_fault(words),
        Attribute::Other => None,
    }
}

#[tactic(auto, unfolding(crate::specs::Reading::effect_of))]
fn line_fault(service: &Service, line: &Line) -> Option<Why>
    ensures { result ≡ result_err (effect_of service.now line.now) }
{
    let attribute = attribute_of(service, line.attribute.bytes());
    fault_as(attribute, service, line.words.as_slice())
}

// The fault of a line of the service.
fn fault_of_ours(service: &Service, line: &Line) -> Option<RuleFault>
    ensures { result ≡ numbered line.now.number (result_err (effect_of service.now line.now)) }
{
    match line_fault(service, line) {
        Some(why) => Some(RuleFault {
            line: line.number,
            why,
        }),
        None => None,
    }
}

// The fault of a line, where it has the keyword.
fn fault_of(service: &Service, key: &[u8], line: &Line) -> Option<RuleFault>
    ensures { (lines : List Line) →
        option_or result (result_err (book_of service.now (filter (is_of key.now) lines)))
        ≡ result_err (book_of service.now (filter (is_of key.now) (line.now ∷ lines))) }
{
    if !is_of(line, key) {
        return None;
    }
    fault_of_ours(service, line)
}

/// The first of the lines with the keyword that can't be read. It takes no memory.
pub(crate) fn first_fault(lines: &[Line], service: &Service, key: &[u8]) -> Option<RuleFault>
    ensures { result ≡ result_err (book_of service.now (filter (is_of key.now) lines.now)) }
{
    for line in lines {
        if let Some(fault) = fault_of(service, key, line) {
            return Some(fault);
        }
    }
    None
}
