ghost use Rattle.fw_outside.specs.Counts.{Rose};

use fw_outside::Failed;

/// Counts a call of an end of a link that didn't come up: it fails.
pub(crate) fn miss(faults: &mut u64) -> Failed
    ensures { Rose faults.old faults.new }
{
    *faults = faults.saturating_add(1);
    Failed
}
