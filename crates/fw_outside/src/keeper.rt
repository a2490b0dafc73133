ghost use Rattle.fw_outside.specs.KeeperView.{KeeperView, AreLoaded, Refuses, Sets};
ghost use Rattle.std.specs.Prelude.{Some, None, IfOk, IfErr};

use crate::KeepFault;
use fw_types::{Name, Octets};

/// Whoever keeps bytes under names, for longer than a program runs.
pub trait Keeper: Drop {
    /// The names with their bytes, where the keeper tells them, and the counts of failures and of calls.
    ghost keeper_view: { Self → KeeperView };

    /// Keeps the bytes under the name, in place of those that stood there.
    fn put(&mut self, name: &Name, bytes: &[u8]) -> Result<(), KeepFault>
        ensures { Sets result name.now (Some bytes.now) (keeper_view self.old) (keeper_view self.new) };

    /// Keeps nothing under the name any more.
    fn drop_name(&mut self, name: &Name) -> Result<(), KeepFault>
        ensures { Sets result name.now None (keeper_view self.old) (keeper_view self.new) };

    /// All names with their bytes, in the order of the names, each once.
    fn load(&mut self) -> Result<Vec<(Name, Octets)>, KeepFault>
        ensures loaded { IfOk result (λ loaded. AreLoaded loaded.items (keeper_view self.old) (keeper_view self.new)) }
        ensures refused { IfErr result (λ fault. Refuses fault (keeper_view self.old) (keeper_view self.new)) };
}
