ghost use Rattle.std.specs.Prelude.{◌≡◌, drop};
ghost use Rattle.gate_rules.specs.Hours.{hours_if_read, hours_of_operation};
ghost use Rattle.gate_rules.specs.Lists.{options_in};
ghost use Rattle.gate_rules.specs.Operation.{read_operation};
ghost use Rattle.gate_rules.specs.Times.{hours_said};

use crate::hours::{Hours, hours_said};
use crate::operation::operation_fault;
use crate::operation_hosts::is_about_operations;
use crate::words::options_in;
use host_pattern::Word;
use netperm_table::Line;

// The hours after the holder, the name, the gateway and the host list of a line that can be read.
fn hours_after_hosts(words: &[Word]) -> Option<Hours>
    ensures { result ≡ hours_said (options_in (drop 3 words.now)) }
{
    match words {
        [_, _, _, hosts @ ..] => hours_said(options_in(hosts)),
        _ => None,
    }
}

// The hours of the words of such a line, or nothing where they can't be read.
fn hours_in_words(words: &[Word]) -> Option<Hours>
    ensures { result ≡ hours_if_read (read_operation words.now) words.now }
{
    match operation_fault(words) {
        Some(_) => None,
        None => hours_after_hosts(words),
    }
}

/// When a line of `authsrv` is open that permits or denies an operation, by its first `-hours`. Nothing where it has
/// none, where the line is another one, and where it can't be read. It takes no memory.
#[tactic(auto, unfolding(crate::specs::Hours::hours_of_operation))]
pub fn hours_of_operation(line: &Line) -> Option<Hours>
    ensures { result ≡ hours_of_operation line.now }
{
    if !is_about_operations(line) {
        return None;
    }
    hours_in_words(line.words.as_slice())
}
