//! Rows that `bastion` runs.

use crate::commands;
use crate::running::run_over;
use crate::serving::serve_over;
use format_of_rows::{Row, Setting};
use fw_memory::{Calls, MemKeeper};
use fw_types::NoMemory;
use runs_of_rows::{Devices, Difference, Ended, Runner};
use std::alloc::Global;
use std::thread::Threads;

/// Runs a row by `bastion`: by `run`, or by `conn` where the row limits the history or has a port that fails.
pub(crate) struct BastionRunner;

impl Runner for BastionRunner {
    fn run<H: Threads + Sync>(
        &self,
        rt: &H,
        alloc: Global,
        setting: &Setting,
        devices: Devices,
        keeper: MemKeeper,
        port: Option<Calls>,
    ) -> Ended {
        let words = &setting.words;
        if setting.limit.is_none() && port.is_none() {
            return run_over(rt, alloc, words, devices, keeper);
        }
        serve_over(rt, alloc, words, setting.limit, port, devices, keeper)
    }

    fn misread(
        &self,
        alloc: Global,
        row: &Row,
        command: &[u8],
        difference: &mut Difference,
    ) -> Result<(), NoMemory> {
        commands::misread(alloc, row, command, difference)
    }
}
