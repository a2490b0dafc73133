//! Who runs a row.
ghost use Rattle.std.specs.Thread.{IsSync};

use crate::comparing::Difference;
use crate::devices::Devices;
use format_of_rows::{Row, Setting};
use fw_memory::{Calls, MemKeeper};
use fw_types::NoMemory;
use std::alloc::Global;
use std::thread::Threads;

/// The status of a run, and the devices after it.
#[derive(Drop)]
pub struct Ended {
    pub status: u8,
    pub devices: Devices,
    /// What the run gives back of its keeper.
    pub keeper: Option<MemKeeper>,
    /// Whether the last entry of its history closes the first session; not where it keeps none.
    pub closed: bool,
}

/// What the program under test does with a row.
pub trait Runner {
    /// Runs what the setting says over the devices and the keeper; where the row says at which requests the link of its port
    /// fails, by a port that fails at these.
    fn run<H: Threads + Sync>(
        &self,
        rt: &H,
        alloc: Global,
        setting: &Setting,
        devices: Devices,
        keeper: MemKeeper,
        port: Option<Calls>,
    ) -> Ended
        requires sync { IsSync H.row };

    /// Looks for the first thing in which the row's words are read otherwise than as this command.
    ///
    /// # Errors
    ///
    /// `NoMemory` where memory was wanting.
    fn misread(
        &self,
        alloc: Global,
        row: &Row,
        command: &[u8],
        difference: &mut Difference,
    ) -> Result<(), NoMemory>;
}
