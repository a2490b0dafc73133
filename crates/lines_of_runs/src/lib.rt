//! Files of rows, written as `lines_of_rows` says, of runs that may start threads.
//!
//! A crate says by [`Runs::tell`] what comes of what a row asks; [`compare_runs`] prints the same as
//! `lines_of_rows::compare` does, and tells the same.
#![tactic(auto)]

mod files;
mod line;
mod runs;

pub use files::compare_runs;
pub use runs::Runs;
