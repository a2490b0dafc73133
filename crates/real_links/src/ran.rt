ghost use Rattle.std.specs.Prelude.{◌≡◌, IfOk};

use std::io;
use std::process::{Command, ExitStatus, Processes};
use std::snapshot::Snapshot;

/// A command that was run, and how it ended. It has no bytes of the command.
#[derive(Drop)]
pub struct Ran {
    pub(crate) command: Snapshot<Command>,
    pub(crate) status: ExitStatus,
}

/// Runs the command with the streams of this process, and waits for its end. What it does is the system's word.
pub(crate) fn run<R: Processes>(system: &R, mut command: Command) -> io::Result<Ran>
    ensures { IfOk result (λ ran. ran.command.value ≡ command) }
{
    let asked = Snapshot::of(&command);
    let status = command.status(system)?;
    Ok(Ran {
        command: asked,
        status,
    })
}
