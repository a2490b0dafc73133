//! Which calls of the devices fail.

use fw_memory::Calls;
use fw_types::NoMemory;
use std::alloc::Global;

/// For so many bytes there is room in the log, where nothing else is said.
const ROOM: usize = 65_536;

/// What fails in a run.
#[derive(Clone, Copy, PartialEq, Eq)]
pub(crate) enum Part {
    /// Nothing.
    Nothing,
    /// The client's source, at a call.
    Client,
    /// Nothing comes of the client, at a call.
    Idle,
    /// What the client is told, at a call.
    Output,
    /// The log, at a call.
    Log,
    /// The log, behind so many bytes.
    LogRoom,
    /// The files, at a call.
    Table,
    /// The disk of the slot with this number, at a call.
    Disk(u64),
    /// The same, from a call on.
    DiskOnward(u64),
}

/// What fails, and at which call.
#[derive(Clone, Copy)]
pub(crate) struct Broken {
    pub(crate) part: Part,
    pub(crate) at: u64,
}

impl Broken {
    /// The calls that fail where this part does.
    pub(crate) fn calls(&self, alloc: Global, part: Part) -> Result<Calls, NoMemory> {
        if self.part == part {
            return Calls::of(alloc, &[self.at]);
        }
        Ok(Calls::none())
    }

    /// The calls of the disk of this slot that fail.
    pub(crate) fn disk_calls(&self, alloc: Global, number: u64) -> Result<Calls, NoMemory> {
        if self.part == Part::DiskOnward(number) {
            return Ok(Calls::onward(self.at));
        }
        self.calls(alloc, Part::Disk(number))
    }

    /// For how many bytes there is room in the log.
    pub(crate) fn log_room(&self) -> usize {
        if self.part == Part::LogRoom {
            return self.at.min(ROOM as u64) as usize;
        }
        ROOM
    }
}

/// Nothing fails.
pub(crate) const UNBROKEN: Broken = Broken {
    part: Part::Nothing,
    at: 0,
};
