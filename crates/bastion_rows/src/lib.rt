//! Rows of what stands on `bastion`, over devices in memory: each row of a file says what is told of what is asked, by the kinds that
//! its part knows. `lines_of_rows` says how a row is written. Whole runs of the other commands are the rows of `fwtk_rows`.
#![tactic(auto)]

pub mod jobs;
pub mod mail;
pub mod ready;
mod shown;
pub mod texts;
mod world;
