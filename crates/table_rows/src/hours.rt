//! What is told of the hours of lines about operations.

use crate::patterns::tell_truth;
use crate::tables::read_table;
use fw_memory::Calls;
use fw_types::NoMemory;
use gate_rules::{Hours, hours_of_operation};
use lines_of_rows::{Told, add, add_number, cut_word, number_of};
use netperm_table::Line;
use std::alloc::Global;

fn hours_of_first(lines: &[Line]) -> Option<Hours> {
    match lines {
        [line, ..] => hours_of_operation(line),
        [] => None,
    }
}

/// `hours MOMENT TABLE => FROM TO yes`: the hours of the table's first line, and whether they are open at the moment.
/// `-` is none.
pub(crate) fn tell_hours(alloc: Global, asked: &[u8], out: &mut Told) -> Result<(), NoMemory> {
    let (moment, text) = cut_word(asked);
    let Ok(table) = read_table(alloc, text, 64, Calls::none(), Calls::none()) else {
        add(out, b"no table");
        return Ok(());
    };
    match hours_of_first(table.lines()) {
        Some(hours) => {
            add_number(out, u64::from(hours.from));
            add_number(out, u64::from(hours.to));
            tell_truth(hours.is_open(number_of(moment)), out);
        }
        None => add(out, b"-"),
    }
    Ok(())
}
