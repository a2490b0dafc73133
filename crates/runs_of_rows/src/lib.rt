//! Tries rows of whole runs over devices in memory: makes the devices of a row, has it run, compares what came of it
//! with what the row expects, and runs it again with each device failing at each of its calls in turn.
//!
//! What runs a row is a [`Runner`]; this crate knows nothing of it. [`try_rows`] tries the rows of a file and tells of
//! each in a [`Report`].
#![tactic(auto)]

mod broken;
mod calls;
mod comparing;
mod devices;
mod elsewhere;
mod file_gates;
mod gates;
mod gateways;
mod parts;
mod plan;
mod relays;
mod report;
mod runner;
mod running;
mod seen;
mod sweeps;
mod texts;
mod trying;
mod verdicts;
mod writing;

pub use comparing::Difference;
pub use devices::{Devices, Helpers, Place, Talk};
pub use report::{Counts, Report};
pub use runner::{Ended, Runner};
pub use trying::try_rows;
