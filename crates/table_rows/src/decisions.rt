//! What is told of rules.
ghost use Rattle.std.specs.Prelude.{◌≡◌, ◌<◌};

use crate::options::{tell_options, tell_settings};
use crate::patterns::{party_of, tell_truth};
use crate::tables::read_table;
use arrayvec::ArrayVec;
use fw_memory::Calls;
use fw_types::{Dest, Host, NoMemory, Peer};
use gate_rules::{Options, Rules, RulesFault, Service, Verdict, destination};
use host_pattern::Steps;
use lines_of_rows::{Told, add, add_number, add_word, cut_word};
use std::alloc::Global;
use std::marker::Brand;
use std::sync::ledger::{Blank, Ledger};

fn verdict_by<L: Ledger>(rules: &Rules, peer: &Peer, blank: Blank) -> Verdict
    requires name { blank.name ≡ L.name }
    requires parts { blank.parts ≡ L.parts }
    requires some { 0 < blank.parts }
{
    let mut steps = Steps::<L>::new(blank);
    rules.verdict(peer, &mut steps)
}

fn allows_by<L: Ledger>(options: &Options, dest: &Dest, blank: Blank) -> bool
    requires name { blank.name ≡ L.name }
    requires parts { blank.parts ≡ L.parts }
    requires some { 0 < blank.parts }
{
    let mut steps = Steps::<L>::new(blank);
    destination(options, dest, &mut steps)
}

pub(crate) fn verdict(rules: &Rules, peer: &Peer) -> Verdict {
    verdict_by::<Brand>(rules, peer, Blank::new(1))
}

fn allows(options: &Options, dest: &Dest) -> bool {
    allows_by::<Brand>(options, dest, Blank::new(1))
}

// The rules of the service in the table, or nothing, and then why is told.
pub(crate) fn rules_of(
    alloc: Global,
    service: &[u8],
    text: &[u8],
    out: &mut Told,
) -> Option<Rules> {
    let Some(service) = Service::read(service) else {
        add(out, b"no service");
        return None;
    };
    let Ok(table) = read_table(alloc, text, 64, Calls::none(), Calls::none()) else {
        add(out, b"no table");
        return None;
    };
    match Rules::of(alloc, &table, &service) {
        Ok(rules) => Some(rules),
        Err(RulesFault::Rule(fault)) => {
            add_number(out, u64::from(fault.line));
            add_word(out, fault.why.text());
            None
        }
        Err(RulesFault::NoMemory) => {
            add(out, b"no memory");
            None
        }
    }
}

/// `rules SERVICE TABLE => read`, or the line and the cause of the fault.
pub(crate) fn tell_rules(alloc: Global, asked: &[u8], out: &mut Told) -> Result<(), NoMemory> {
    let (service, text) = cut_word(asked);
    if rules_of(alloc, service, text, out).is_some() {
        add(out, b"read");
    }
    Ok(())
}

fn tell_verdict(rules: &Rules, peer: &Peer, out: &mut Told) {
    match verdict(rules, peer) {
        Verdict::Deny { line } => {
            add_word(out, b"deny");
            add_number(out, u64::from(line));
        }
        Verdict::Permit { line } => {
            add_word(out, b"permit");
            add_number(out, u64::from(line));
            match rules.options(line) {
                Some(options) => tell_options(options, out),
                None => add_word(out, b"without options"),
            }
        }
    }
}

/// `decide SERVICE ADDRESS NAME TABLE => permit LINE OPTIONS SETTINGS`, or `deny`.
pub(crate) fn tell_decision(alloc: Global, asked: &[u8], out: &mut Told) -> Result<(), NoMemory> {
    let (service, rest) = cut_word(asked);
    let (addr, rest) = cut_word(rest);
    let (name, text) = cut_word(rest);
    if let Some(rules) = rules_of(alloc, service, text, out) {
        tell_verdict(&rules, &party_of(addr, name), out);
        tell_settings(&rules, out);
    }
    Ok(())
}

/// `goes HOST TABLE => yes`: whether the options of line 1 let `tn-gw` go to the host.
pub(crate) fn tell_destination(
    alloc: Global,
    asked: &[u8],
    out: &mut Told,
) -> Result<(), NoMemory> {
    let (host, text) = cut_word(asked);
    let Some(rules) = rules_of(alloc, b"tn-gw", text, out) else {
        return Ok(());
    };
    match (rules.options(1), Host::read(host)) {
        (Some(options), Some(host)) => {
            let dest = Dest { host, port: 23 };
            tell_truth(allows(options, &dest), out);
        }
        _ => add(out, b"no options or no host"),
    }
    Ok(())
}

/// `service TEXT => TEXT KEYWORD`. `-` is no service.
pub(crate) fn tell_service(asked: &[u8], out: &mut Told) {
    let mut text = ArrayVec::new();
    let mut keyword = ArrayVec::new();
    match Service::read(asked) {
        Some(service) => {
            service.twin().write(&mut text);
            service.write_keyword(&mut keyword);
            add(out, text.as_slice());
            add_word(out, keyword.as_slice());
        }
        None => add(out, b"-"),
    }
}
