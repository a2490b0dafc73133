//! Whoever tells what comes of a run.
ghost use Rattle.std.specs.Thread.{IsSync};

use fw_types::NoMemory;
use lines_of_rows::Told;
use std::alloc::Global;
use std::thread::Threads;

/// Whoever tells what comes of a run that is asked for.
pub trait Runs {
    /// Adds to `out`, which is empty, what is told of `asked` in a row of this kind.
    ///
    /// # Errors
    ///
    /// `NoMemory` where memory was wanting.
    fn tell<H: Threads + Sync>(
        &self,
        threads: &H,
        alloc: Global,
        kind: &str,
        asked: &[u8],
        out: &mut Told,
    ) -> Result<(), NoMemory>
        requires sync { IsSync H.row };
}
