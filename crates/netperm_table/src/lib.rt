//! The permission table: what its text says, line by line.
//!
//! [`Table::read`] takes a table from any source, in whatever pieces the source gives, and needs no more memory at a
//! time than one piece, one line and the lines that it keeps. Its contract speaks of the whole text that was left in
//! the source, and never of pieces:
//!
//! - `Ok` has the lines of that text, and says that the source was read to its end;
//! - a fault of a line is that of the first line that can't be read, and the first of the tests that this line fails;
//! - `ReadFault` comes exactly where a take failed or nothing came in time, and what was read by then isn't answered;
//! - what was taken before the last take settles no fault, and where the source failed, all that was taken settles none:
//!   `laws` says that a line settles its fault where it ends, and at the latest with its 2,050th byte;
//! - in any case only a front of the text was taken, and nothing else of the source changed but the count of that
//!   failure.
//!
//! Want of memory may be answered at any time. Where a source doesn't tell what is left in it, nothing is said of the
//! lines.
#![tactic(auto)]

mod copying;
mod cut;
mod keywords;
pub mod laws;
mod line;
mod part;
mod read_line;
mod reader;
mod table;
mod table_fault;
mod words;

pub use keywords::Keywords;
pub use line::Line;
pub use table::Table;
pub use table_fault::TableFault;
pub use words::Words;
