//! What is told of the policy in a table.

use auth_events::OpService;
use auth_machine::Policy;
use fw_memory::{Calls, MemSource};
use fw_types::{Host, Name, Octets};
use gate_rules::{RulesFault, Verdict};
use lines_of_rows::{Told, add, add_number, add_word, cut_word, number_of};
use netperm_table::{Table, TableFault};
use std::alloc::Global;

fn read_table(alloc: Global, text: &[u8]) -> Result<Table, TableFault> {
    let bytes = Octets::copy(alloc, text)?;
    let mut source = MemSource::new(bytes, 64, Calls::none(), Calls::none());
    Table::read(alloc, &mut source)
}

fn tell_fault(fault: RulesFault, out: &mut Told) {
    match fault {
        RulesFault::Rule(fault) => {
            add(out, b"line");
            add_number(out, u64::from(fault.line));
            add_word(out, fault.why.text());
        }
        RulesFault::NoMemory => add(out, b"no memory"),
    }
}

// The policy of the table, or nothing, and then why is told.
fn policy_in(alloc: Global, table: &Table, out: &mut Told) -> Option<Policy> {
    match Policy::of(alloc, table) {
        Ok(policy) => Some(policy),
        Err(fault) => {
            tell_fault(fault, out);
            None
        }
    }
}

/// `policy TABLE => N lines`: the policy that further rows ask.
pub(crate) fn policy_of(alloc: Global, asked: &[u8], out: &mut Told) -> Option<Policy> {
    let Ok(table) = read_table(alloc, asked) else {
        add(out, b"no table");
        return None;
    };
    add_number(out, table.lines().len() as u64);
    add_word(out, b"lines");
    policy_in(alloc, &table, out)
}

fn service_of(text: &[u8]) -> OpService {
    match text {
        b"tn-gw" => OpService::Telnet,
        b"ftp-gw" => OpService::Ftp,
        _ => OpService::Rlogin,
    }
}

/// `operation USER GROUP SERVICE HOST MOMENT => permit LINE`, or `deny`. Without a moment it is asked at 0.
pub(crate) fn tell_operation(policy: &Policy, asked: &[u8], out: &mut Told) {
    let (user, rest) = cut_word(asked);
    let (group, rest) = cut_word(rest);
    let (service, rest) = cut_word(rest);
    let (host, moment) = cut_word(rest);
    let (Some(user), Some(host)) = (Name::read(user), Host::read(host)) else {
        return add(out, b"no user or no host");
    };
    let service = service_of(service);
    let verdict = policy.verdict(&user, &Name::read(group), service, &host, number_of(moment));
    match verdict {
        Verdict::Permit { line } => {
            add(out, b"permit");
            add_number(out, u64::from(line));
        }
        Verdict::Deny { line } => {
            add(out, b"deny");
            add_number(out, u64::from(line));
        }
    }
}

fn tell_settings_of(policy: &Policy, out: &mut Told) {
    match policy.bad_sleep() {
        Some(seconds) => add_number(out, seconds),
        None => add(out, b"-"),
    }
    if policy.no_bogus() {
        add_word(out, b"yes");
    } else {
        add_word(out, b"no");
    }
}

/// `settings TABLE => SECONDS yes`, or the line at fault and what is wrong with it.
pub(crate) fn tell_settings(alloc: Global, asked: &[u8], out: &mut Told) {
    match read_table(alloc, asked) {
        Ok(table) => {
            if let Some(policy) = policy_in(alloc, &table, out) {
                tell_settings_of(&policy, out);
            }
        }
        Err(_) => add(out, b"no table"),
    }
}
