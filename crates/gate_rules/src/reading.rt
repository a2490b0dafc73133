//! Reading a line by its attribute.
ghost use Rattle.std.specs.Prelude.{◌≡◌, ◌||◌, ◌==◌, true, false, Ok, Err, codes, is_none, IfOk};
ghost use Rattle.std.specs.Str.{bytes_eq};
ghost use Rattle.gate_rules.specs.Lists.{mapped};
ghost use Rattle.gate_rules.specs.Options.{options_of};
ghost use Rattle.gate_rules.specs.Reading.{deny_effect, is_of, operation_effect, permit_effect, plug_rule, plug_effect, port_effect, ruled, effect_as, effect_of, setting_effect, where_ours, with_target};

use crate::attribute::{Attribute, attribute_of};
use crate::line_effect::LineEffect;
use crate::lists::{Reading, hosts_alone, patterns_of};
use crate::operation::operation_fault;
use crate::options_builder::options_of;
use crate::setting::set_to;
use crate::words::{hosts_in, options_in};
use crate::{Assigned, Options, Rule, Service, Setting, SharedOptions, Why};
use fw_types::{Octets, read_port};
use host_pattern::{PatternList, Word};
use netperm_table::Line;
use std::alloc::Global;

fn is_key(word: &Octets, key: &[u8]) -> bool
    ensures { result ≡ (bytes_eq word.now key.now || bytes_eq word.now (codes "*")) }
{
    word.bytes() == key || word.bytes() == b"*".as_slice()
}

// Whether one of the line's keywords is this one or a star.
pub(crate) fn is_of(line: &Line, key: &[u8]) -> bool
    ensures { result ≡ is_of key.now line.now }
{
    line.keywords
        .as_slice()
        .iter()
        .any(|word| is_key(word, key))
}

// The rule of a line with these hosts and these options.
fn ruled(number: u32, permits: bool, hosts: PatternList, options: SharedOptions) -> LineEffect
    ensures { ruled number permits (Ok hosts) (Ok options) ≡ Ok result }
{
    LineEffect::Ruled(Rule {
        line: number,
        permits,
        hosts,
        options,
    })
}

// The options that these words are, which take no room where there are no words.
#[tactic(auto, unfolding(crate::specs::Options::options_of, crate::specs::Options::built, crate::specs::Options::options_after))]
fn shared_options_of(
    alloc: Global,
    service: &Service,
    port: u16,
    words: &[Word],
) -> Reading<SharedOptions>
    ensures { IfOk result (λ read. read ≡ options_of service.now port words.now) }
{
    if words.is_empty() {
        return Ok(Ok(SharedOptions::none()));
    }
    match options_of(alloc, service, port, words)? {
        Ok(options) => {
            let shared = SharedOptions::of(alloc, options)?;
            Ok(Ok(shared))
        }
        Err(why) => Ok(Err(why)),
    }
}

fn permit_effect(
    alloc: Global,
    service: &Service,
    number: u32,
    words: &[Word],
) -> Reading<LineEffect>
    ensures { IfOk result (λ read. read ≡ permit_effect service.now number words.now) }
{
    let hosts = match patterns_of(alloc, hosts_in(words))? {
        Ok(hosts) => hosts,
        Err(why) => return Ok(Err(why)),
    };
    match shared_options_of(alloc, service, 0, options_in(words))? {
        Ok(options) => Ok(Ok(ruled(number, true, hosts, options))),
        Err(why) => Ok(Err(why)),
    }
}

fn deny_effect(alloc: Global, number: u32, words: &[Word]) -> Reading<LineEffect>
    ensures { IfOk result (λ read. read ≡ deny_effect number words.now) }
{
    match hosts_alone(alloc, words)? {
        Ok(hosts) => Ok(Ok(ruled(number, false, hosts, SharedOptions::none()))),
        Err(why) => Ok(Err(why)),
    }
}

// Options without a target miss one.
fn with_target(options: Options) -> Result<Options, Why>
    ensures { result ≡ with_target (Ok options) }
{
    if options.plug_to.is_none() {
        return Err(Why::MissingValue);
    }
    Ok(options)
}

// The rule of a plug's line, whichever port it is for.
fn plug_rule(
    alloc: Global,
    service: &Service,
    number: u32,
    port: u16,
    words: &[Word],
) -> Reading<LineEffect>
    ensures { IfOk result (λ read. read ≡ plug_rule service.now number port words.now) }
{
    let hosts = match patterns_of(alloc, hosts_in(words))? {
        Ok(hosts) => hosts,
        Err(why) => return Ok(Err(why)),
    };
    let options = match options_of(alloc, service, port, options_in(words))? {
        Ok(options) => options,
        Err(why) => return Ok(Err(why)),
    };
    match with_target(options) {
        Ok(options) => {
            let options = SharedOptions::of(alloc, options)?;
            Ok(Ok(ruled(number, true, hosts, options)))
        }
        Err(why) => Ok(Err(why)),
    }
}

fn where_ours(ours: bool, effect: LineEffect) -> LineEffect
    ensures { result ≡ where_ours ours effect }
{
    if ours { effect } else { LineEffect::Nothing }
}

fn plug_effect(
    alloc: Global,
    service: &Service,
    number: u32,
    port: Option<u16>,
    words: &[Word],
) -> Reading<LineEffect>
    ensures { IfOk result (λ read. read ≡ plug_effect service.now number port words.now) }
{
    let Some(port) = port else {
        return Ok(Err(Why::BadNumber));
    };
    match plug_rule(alloc, service, number, port, words)? {
        Ok(effect) => Ok(Ok(where_ours(port == service.plug_port(), effect))),
        Err(why) => Ok(Err(why)),
    }
}

fn port_effect(alloc: Global, service: &Service, number: u32, words: &[Word]) -> Reading<LineEffect>
    ensures { IfOk result (λ read. read ≡ port_effect service.now number words.now) }
{
    match words {
        [] => Ok(Err(Why::MissingValue)),
        [word, more @ ..] => plug_effect(
            alloc,
            service,
            number,
            read_port(word.text.bytes()),
            more,
        ),
    }
}

fn setting_effect(which: Setting, number: u32, words: &[Word]) -> Result<LineEffect, Why>
    ensures { result ≡ setting_effect which number words.now }
{
    match set_to(which, words) {
        Ok(value) => Ok(LineEffect::Set(Assigned {
            which,
            value,
            line: number,
        })),
        Err(why) => Err(why),
    }
}

// A line about operations is read here for its faults alone.
#[tactic(auto, using(crate::proofs::LineFaultLemmas::operation_bad, crate::proofs::LineFaultLemmas::operation_good))]
fn operation_effect(words: &[Word]) -> Result<LineEffect, Why>
    ensures { result ≡ operation_effect words.now }
{
    match operation_fault(words) {
        Some(why) => Err(why),
        None => Ok(LineEffect::Nothing),
    }
}

fn effect_as(
    alloc: Global,
    attribute: Attribute,
    service: &Service,
    line: &Line,
) -> Reading<LineEffect>
    ensures { IfOk result (λ read. read ≡ effect_as attribute service.now line.now.number line.now.words) }
{
    let words = line.words.as_slice();
    match attribute {
        Attribute::Permit => permit_effect(alloc, service, line.number, words),
        Attribute::Deny => deny_effect(alloc, line.number, words),
        Attribute::Port => port_effect(alloc, service, line.number, words),
        Attribute::Sets(which) => Ok(setting_effect(which, line.number, words)),
        Attribute::Operation => Ok(operation_effect(words)),
        Attribute::Other => Ok(Ok(LineEffect::Nothing)),
    }
}

/// What a line says to a service, or why it can't be read.
#[tactic(auto, unfolding(crate::specs::Reading::effect_of))]
pub(crate) fn effect_of(alloc: Global, service: &Service, line: &Line) -> Reading<LineEffect>
    ensures { IfOk result (λ read. read ≡ effect_of service.now line.now) }
{
    let attribute = attribute_of(service, line.attribute.bytes());
    effect_as(alloc, attribute, service, line)
}
