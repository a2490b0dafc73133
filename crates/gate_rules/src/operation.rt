//! Lines about operations: their hosts, and what may be wrong with them.
ghost use Rattle.std.specs.Prelude.{◌≡◌, is_some, Ok, Err, IfOk, IfErr};
ghost use Rattle.std.specs.Result.{result_err};
ghost use Rattle.gate_rules.specs.Operation.{hosts_and_hours, hosts_unless, is_gateway_or_star, is_holder, is_name_or_star, read_operation, operation_at, operation_hosts, operation_of};

use crate::Why;
use crate::hours::hours_fault;
use crate::lists::{Reading, patterns_fault, patterns_of};
use crate::words::{hosts_in, options_in};
use fw_types::Name;
use host_pattern::{PatternList, Word};
use std::alloc::Global;

fn is_holder(text: &[u8]) -> bool
    ensures { result ≡ is_holder text.now }
{
    text == b"user".as_slice() || text == b"group".as_slice()
}

fn is_name_or_star(text: &[u8]) -> bool
    ensures { result ≡ is_name_or_star text.now }
{
    text == b"*".as_slice() || Name::read(text).is_some()
}

fn is_gateway_or_star(text: &[u8]) -> bool
    ensures { result ≡ is_gateway_or_star text.now }
{
    text == b"tn-gw".as_slice()
        || text == b"ftp-gw".as_slice()
        || text == b"rlogin-gw".as_slice()
        || text == b"*".as_slice()
}

fn hosts_unless(hosts: Result<PatternList, Why>, fault: Option<Why>) -> Result<PatternList, Why>
    ensures { result ≡ hosts_unless hosts fault }
{
    match hosts {
        Err(why) => Err(why),
        Ok(hosts) => match fault {
            None => Ok(hosts),
            Some(why) => Err(why),
        },
    }
}

// A host list, and hours or nothing after it.
fn hosts_and_hours(alloc: Global, words: &[Word]) -> Reading<PatternList>
    ensures { IfOk result (λ read. read ≡ hosts_and_hours words.now) }
{
    let hosts = patterns_of(alloc, hosts_in(words))?;
    Ok(hosts_unless(hosts, hours_fault(options_in(words))))
}

// Why the words are no host list with hours or nothing after it.
#[tactic(auto, using(crate::proofs::ListsLemmas::unless_fault))]
fn hosts_and_hours_fault(words: &[Word]) -> Option<Why>
    ensures { result ≡ result_err (hosts_and_hours words.now) }
{
    patterns_fault(hosts_in(words)).or(hours_fault(options_in(words)))
}

// The words of the host list, which must not be missing.
fn operation_hosts(words: &[Word]) -> Result<&[Word], Why>
    ensures ok { IfOk result (λ hosts. operation_hosts words.entry.now ≡ hosts_and_hours hosts.now) }
    ensures err { IfErr result (λ why. operation_hosts words.entry.now ≡ Err why) }
{
    match words {
        [] => Err(Why::MissingValue),
        [_, ..] => Ok(words),
    }
}

fn operation_at(words: &[Word]) -> Result<&[Word], Why>
    ensures ok { IfOk result (λ hosts. operation_at words.entry.now ≡ hosts_and_hours hosts.now) }
    ensures err { IfErr result (λ why. operation_at words.entry.now ≡ Err why) }
{
    match words {
        [] => Err(Why::MissingValue),
        [word, more @ ..] => {
            if !is_gateway_or_star(word.text.bytes()) {
                return Err(Why::BadWord);
            }
            operation_hosts(more)
        }
    }
}

fn operation_of(words: &[Word]) -> Result<&[Word], Why>
    ensures ok { IfOk result (λ hosts. operation_of words.entry.now ≡ hosts_and_hours hosts.now) }
    ensures err { IfErr result (λ why. operation_of words.entry.now ≡ Err why) }
{
    match words {
        [] => Err(Why::MissingValue),
        [word, more @ ..] => {
            if !is_name_or_star(word.text.bytes()) {
                return Err(Why::BadWord);
            }
            operation_at(more)
        }
    }
}

// The words of the host list of a line with a holder, a name, a gateway and such a list.
fn hosts_of(words: &[Word]) -> Result<&[Word], Why>
    ensures ok { IfOk result (λ hosts. read_operation words.entry.now ≡ hosts_and_hours hosts.now) }
    ensures err { IfErr result (λ why. read_operation words.entry.now ≡ Err why) }
{
    match words {
        [] => Err(Why::MissingValue),
        [word, more @ ..] => {
            if !is_holder(word.text.bytes()) {
                return Err(Why::BadWord);
            }
            operation_of(more)
        }
    }
}

// Why a line about operations can't be read.
pub(crate) fn operation_fault(words: &[Word]) -> Option<Why>
    ensures { result ≡ result_err (read_operation words.now) }
{
    match hosts_of(words) {
        Ok(hosts) => hosts_and_hours_fault(hosts),
        Err(why) => Some(why),
    }
}

// The hosts of such a line.
pub(crate) fn read_operation(alloc: Global, words: &[Word]) -> Reading<PatternList>
    ensures { IfOk result (λ read. read ≡ read_operation words.now) }
{
    match hosts_of(words) {
        Ok(hosts) => hosts_and_hours(alloc, hosts),
        Err(why) => Ok(Err(why)),
    }
}
