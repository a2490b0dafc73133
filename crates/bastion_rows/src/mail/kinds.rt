//! The kinds of row.

use crate::mail::handing::{tell_round, tell_then};
use crate::mail::hands::tell_hands;
use crate::mail::rounds::tell_rounds;
use crate::mail::sweep::tell_sweep;
use crate::mail::telling::{tell_broken, tell_bytes, tell_run};
use fw_types::NoMemory;
use lines_of_rows::{Told, add};
use lines_of_runs::Runs;
use std::alloc::Global;
use std::thread::Threads;

/// Knows the kinds of row.
pub(crate) struct Kinds;

impl Runs for Kinds {
    fn tell<H: Threads + Sync>(
        &self,
        threads: &H,
        alloc: Global,
        kind: &str,
        asked: &[u8],
        out: &mut Told,
    ) -> Result<(), NoMemory> {
        match kind {
            "run" => tell_run(threads, alloc, asked, out),
            "bytes" => tell_bytes(threads, alloc, asked, out),
            "broken" => tell_broken(threads, alloc, asked, out),
            "round" => tell_round(threads, alloc, asked, out),
            "then" => tell_then(threads, alloc, asked, out),
            "rounds" => tell_rounds(threads, alloc, asked, out),
            "hands" => tell_hands(threads, alloc, asked, out),
            "sweep" => tell_sweep(threads, alloc, asked, out),
            _ => {
                add(out, b"no such kind");
                Ok(())
            }
        }
    }
}
