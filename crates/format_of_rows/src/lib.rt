//! Row files: what a run of the firewall meets and what is expected of it, as lines that a person writes.
//!
//! A row file has lines of a keyword, one blank and a text. A row begins with `row NAME` and ends where the next one
//! begins. Empty lines and lines that begin with `#` are skipped. `docs/tests.md` has the keywords in a table.
//!
//! [`parse`] reads a file into [`Row`]s, or tells the number of the first line that it can't read and why. This crate
//! knows nothing of how a row is run.
#![tactic(auto)]

mod escapes;
mod fault;
mod keyword;
mod line;
mod parsing;
mod row;
mod section;
mod setting;
mod trial;
mod values;
mod wanted;

pub use fault::{Fault, Why};
pub use parsing::parse;
pub use row::Row;
pub use setting::{File, Link, Setting, TABLE};
pub use trial::{Break, Part, Times, Trial, Tried};
pub use wanted::{Called, Reading, Wanted};
