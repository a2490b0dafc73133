//! The kinds of row. Each asks for a session, `FAILS|CLIENT|SERVER`: what fails, `-` for nothing, what the client says, and
//! what the server says.

use crate::run::{run, run_through};
use fw_types::NoMemory;
use lines_of_rows::{Told, add};
use lines_of_runs::Runs;
use session_acts::Form;
use std::alloc::Global;
use std::thread::Threads;

/// Knows the kinds of row.
pub(crate) struct Kinds;

impl Runs for Kinds {
    fn tell<H: Threads + Sync>(
        &self,
        threads: &H,
        alloc: Global,
        kind: &str,
        asked: &[u8],
        out: &mut Told,
    ) -> Result<(), NoMemory> {
        match kind {
            "pass" => run(alloc, asked, out)?,
            "through" => run_through(threads, alloc, Form::Lines, asked, out)?,
            "telnet" => run_through(threads, alloc, Form::Telnet, asked, out)?,
            _ => add(out, b"no such kind"),
        }
        Ok(())
    }
}
