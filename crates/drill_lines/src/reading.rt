//! From a text to the rules of `tn-gw`.
ghost use Rattle.std.specs.Prelude.{◌≡◌, ◌≢◌, IfErr, IfOk, Ok, Err};
ghost use Rattle.gate_rules.specs.Reading.{rules_of};
ghost use Rattle.gate_rules.specs.declared.service.Service.TheVariants.{TnGw};
ghost use Rattle.netperm_table.specs.Table.{table_of};
ghost use Rattle.netperm_table.specs.declared.table_fault.TableFault.TheVariants as table;
ghost use Rattle.drill_lines.specs.Drill.{or_rule_fault, rules_in};
ghost use Rattle.drill_lines.specs.declared.drill_fault.DrillFault.TheVariants as faults;

use crate::DrillFault;
use crate::text_source::TextSource;
use gate_rules::{Rules, RulesFault, Service};
use netperm_table::{Table, TableFault};
use std::alloc::Global;

fn read_table(alloc: Global, text: &[u8]) -> Result<Table, TableFault>
    ensures ok { IfOk result (λ lines. table_of text.now ≡ Ok lines) }
    ensures fault { IfErr result (λ e. e ≢ table.NoMemory → table_of text.now ≡ Err e) }
{
    let mut source = TextSource::new(text);
    match Table::read(alloc, &mut source) {
        Err(TableFault::ReadFault) => unreachable!(),
        read => read,
    }
}

fn rules_of(alloc: Global, table: &Table) -> Result<Rules, DrillFault>
    ensures ok { IfOk result (λ rules. rules_of TnGw table.now ≡ Ok rules) }
    ensures fault { IfErr result (λ e. e ≢ faults.NoMemory → or_rule_fault (rules_of TnGw table.now) ≡ Err e) }
{
    match Rules::of(alloc, table, &Service::TnGw) {
        Ok(rules) => Ok(rules),
        Err(RulesFault::Rule(fault)) => Err(DrillFault::Rule(fault)),
        Err(RulesFault::NoMemory) => Err(DrillFault::NoMemory),
    }
}

/// The rules of `tn-gw` in a table with this text.
pub(crate) fn read_rules(alloc: Global, text: &[u8]) -> Result<Rules, DrillFault>
    ensures ok { IfOk result (λ rules. rules_in text.now ≡ Ok rules) }
    ensures fault { IfErr result (λ e. e ≢ faults.NoMemory → rules_in text.now ≡ Err e) }
{
    match read_table(alloc, text) {
        Ok(table) => rules_of(alloc, &table),
        Err(TableFault::NoMemory) => Err(DrillFault::NoMemory),
        Err(fault) => Err(DrillFault::Table(fault)),
    }
}
