ghost use Rattle.fw_outside.specs.LauncherView.{LauncherView, Starts};

use crate::Started;
use fw_types::OctetsList;

/// Who starts programs, and waits for their ends.
pub trait Launcher: Drop {
    /// Which programs were started, and how they ended, and the count of failures.
    ghost launcher_view: { Self → LauncherView };

    /// Starts a program with these arguments and waits until it has ended.
    fn start(&mut self, program: &[u8], args: &OctetsList) -> Started
        ensures { Starts result program.now args.now (launcher_view self.old) (launcher_view self.new) };
}
