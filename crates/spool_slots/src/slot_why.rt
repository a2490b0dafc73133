ghost use Rattle.std.specs.Prelude.{◌≡◌};
ghost use Rattle.spool_slots.specs.declared.slot_why.SlotWhy.TheVariants.{DiskFault, NoMemory};

use fw_disk::Failed;
use std::alloc::AllocError;

/// Why a slot wasn't opened.
#[derive(Clone, Copy, Debug, PartialEq, Eq)]
pub enum SlotWhy {
    /// The first byte that can't go on any slot file has this place, or the file ends there too early.
    BadSlot { at: u64 },
    /// The disk failed, or it gave bytes that it can't hold.
    DiskFault,
    NoMemory,
}

impl From<Failed> for SlotWhy {
    ghost from_gives = { λ _ e. e ≡ DiskFault };

    fn from(_: Failed) -> SlotWhy {
        SlotWhy::DiskFault
    }
}

impl From<AllocError> for SlotWhy {
    ghost from_gives = { λ _ e. e ≡ NoMemory };

    fn from(_: AllocError) -> SlotWhy {
        SlotWhy::NoMemory
    }
}

impl From<fw_types::NoMemory> for SlotWhy {
    ghost from_gives = { λ _ e. e ≡ NoMemory };

    fn from(_: fw_types::NoMemory) -> SlotWhy {
        SlotWhy::NoMemory
    }
}
