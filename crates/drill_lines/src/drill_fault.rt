ghost use Rattle.std.specs.Prelude.{◌≡◌};
ghost use Rattle.drill_lines.specs.declared.drill_fault.DrillFault.TheVariants.{NoMemory};

use gate_rules::RuleFault;
use netperm_table::TableFault;
use std::alloc::{AllocError, AllocFailed};

/// Why a drill came to no counts.
#[derive(Clone, Copy, Debug, PartialEq, Eq)]
pub enum DrillFault {
    /// A line that was drawn can't be read.
    Table(TableFault),
    /// A line that was drawn can't be read as a rule.
    Rule(RuleFault),
    /// There was no memory.
    NoMemory,
}

impl From<AllocError> for DrillFault {
    ghost from_gives = { λ _ e. e ≡ NoMemory };

    fn from(_: AllocError) -> DrillFault {
        DrillFault::NoMemory
    }
}

impl<T: Drop> From<AllocFailed<T>> for DrillFault {
    ghost from_gives = { λ _ e. e ≡ NoMemory };

    fn from(_: AllocFailed<T>) -> DrillFault {
        DrillFault::NoMemory
    }
}
