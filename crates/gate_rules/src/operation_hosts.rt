ghost use Rattle.std.specs.Prelude.{◌≡◌, is_ok, is_some, IfOk, OnErr, IsTrue};
ghost use Rattle.std.specs.Result.{result_ok};
ghost use Rattle.gate_rules.specs.Operation.{read_operation};
ghost use Rattle.gate_rules.specs.OperationHosts.{hosts_of_operation, is_about_operations};

use crate::attribute::is_operation;
use crate::operation::{operation_fault, read_operation};
use crate::reading::is_of;
use fw_types::NoMemory;
use host_pattern::{PatternList, Word};
use netperm_table::Line;
use std::alloc::Global;

pub(crate) fn is_about_operations(line: &Line) -> bool
    ensures { result ≡ is_about_operations line.now }
{
    is_of(line, b"authsrv") && is_operation(line.attribute.bytes())
}

// The host list of the words of such a line, or nothing where they can't be read.
fn hosts_in_words(alloc: Global, words: &[Word]) -> Result<Option<PatternList>, NoMemory>
    ensures hosts { IfOk result (λ hosts. hosts ≡ result_ok (read_operation words.now)) }
    ensures memory { OnErr result (IsTrue (is_ok (read_operation words.now))) }
{
    match operation_fault(words) {
        Some(_) => Ok(None),
        None => hosts_read(alloc, words),
    }
}

// The same where they are known to be read.
fn hosts_read(alloc: Global, words: &[Word]) -> Result<Option<PatternList>, NoMemory>
    ensures { IfOk result (λ hosts. hosts ≡ result_ok (read_operation words.now)) }
{
    match read_operation(alloc, words)? {
        Ok(hosts) => Ok(Some(hosts)),
        Err(_) => Ok(None),
    }
}

/// The host list of a line of `authsrv` that permits or denies an operation, or nothing where the line is another one
/// or can't be read.
///
/// # Errors
///
/// `NoMemory`, only where the line has such a list.
#[tactic(auto, unfolding(crate::specs::OperationHosts::hosts_of_operation))]
pub fn hosts_of_operation(alloc: Global, line: &Line) -> Result<Option<PatternList>, NoMemory>
    ensures hosts { IfOk result (λ hosts. hosts ≡ hosts_of_operation line.now) }
    ensures memory { OnErr result (IsTrue (is_some (hosts_of_operation line.now))) }
{
    if !is_about_operations(line) {
        return Ok(None);
    }
    hosts_in_words(alloc, line.words.as_slice())
}
