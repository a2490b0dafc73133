//! The kinds of row.

use crate::jobs::scan::{tell_same, tell_scan};
use crate::jobs::sweep::tell_sweep;
use crate::jobs::telling::{tell_deaf, tell_disks, tell_run};
use fw_types::NoMemory;
use lines_of_rows::{Told, add};
use lines_of_runs::Runs;
use std::alloc::Global;
use std::thread::Threads;

/// Knows the kinds of row.
pub(crate) struct Kinds;

impl Runs for Kinds {
    fn tell<H: Threads + Sync>(
        &self,
        threads: &H,
        alloc: Global,
        kind: &str,
        asked: &[u8],
        out: &mut Told,
    ) -> Result<(), NoMemory> {
        match kind {
            "run" => tell_run(threads, alloc, asked, out)?,
            "deaf" => tell_deaf(threads, alloc, asked, out)?,
            "disks" => tell_disks(threads, alloc, asked, out)?,
            "sweep" => tell_sweep(threads, alloc, asked, out)?,
            "scan" => tell_scan(alloc, asked, out)?,
            "same" => tell_same(threads, alloc, asked, out)?,
            _ => add(out, b"no such kind"),
        }
        Ok(())
    }
}
