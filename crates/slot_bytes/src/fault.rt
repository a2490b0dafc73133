ghost use Rattle.std.specs.Prelude.{◌≡◌};
ghost use Rattle.slot_bytes.specs.declared.fault.HeadFault.TheVariants.{Bad, NoMemory};

use byte_reader::Stop;
use fw_types::NoMemory;

/// Why no head was read.
#[derive(Clone, Copy, Debug, PartialEq, Eq)]
pub enum HeadFault {
    /// The bytes are no slot's head from here on, or they end too early.
    Bad(Stop),
    NoMemory,
}

impl From<Stop> for HeadFault {
    ghost from_gives = { λ stop e. e ≡ Bad stop };

    fn from(stop: Stop) -> HeadFault {
        HeadFault::Bad(stop)
    }
}

impl From<NoMemory> for HeadFault {
    ghost from_gives = { λ _ e. e ≡ NoMemory };

    fn from(_: NoMemory) -> HeadFault {
        HeadFault::NoMemory
    }
}

/// Why no slot was read.
#[derive(Clone, Copy, Debug, PartialEq, Eq)]
pub enum SlotFault {
    /// The first byte that can't go on any slot file has this place, or the file ends there too early.
    Bad { at: usize },
    NoMemory,
}
