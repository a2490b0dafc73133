//! A drill of the table: lines are drawn from a number, and the peers that are asked for behind them.
//!
//! [`count_drill`] writes the lines that [`Drill`] names as the text of a table, reads it as any table is read, and counts how
//! often the rules of `tn-gw` permit and deny the peers. Its answer is exactly `drilled` of `specs/Drill`: the counts of
//! all verdicts. [`tally_line`] is the line that is printed of them.
#![tactic(auto)]

mod counting;
mod drawing;
mod drill_fault;
pub mod laws;
mod plan;
mod reading;
mod tally;
mod text_source;

pub use counting::count_drill;
pub use drill_fault::DrillFault;
pub use plan::Drill;
pub use tally::{Tally, tally_line};
