//! How long a program that was started is waited for.
ghost use Rattle.std.specs.Prelude.{◌≡◌, IfOk};

use crate::ran::Ran;
use std::fs::File;
use std::process::{Child, Command, ExitStatus, OpenProcess, Processes, Stdio};
use std::snapshot::Snapshot;
use std::time::{Clock, Duration, Instant};
use std::{io, thread};

// How many milliseconds go by between two looks at a program.
const REST: u64 = 1;

// Ends a program, and waits for its end.
fn end<P: OpenProcess>(child: &mut Child<P>) {
    if child.kill().is_ok() {
        let _ = child.wait();
    }
}

// How the program ended, if it did by then. A clock that can't be read is as one that says so.
fn ending_within<R: Clock, P: OpenProcess>(
    clock: &R,
    child: &mut Child<P>,
    most: Duration,
) -> io::Result<Option<ExitStatus>> {
    let since = Instant::now(clock)?;
    for _ in 0..u64::MAX {
        if let Some(status) = child.try_wait()? {
            return Ok(Some(status));
        }
        if since.elapsed(clock)? >= most {
            return Ok(None);
        }
        thread::sleep(clock, Duration::from_millis(REST));
    }
    Ok(None)
}

/// Runs the command with this input and no output, and waits for its end, so many seconds at most: then the program is
/// killed, which is a failure. What it does is the system's word.
pub(crate) fn run_within<R: Processes + Clock>(
    system: &R,
    mut command: Command,
    input: File,
    seconds: u32,
) -> io::Result<Ran>
    ensures { IfOk result (λ ran. ran.command.value ≡ command) }
{
    let asked = Snapshot::of(&command);
    command.stdin(input);
    command.stdout(Stdio::null());
    let mut child = command.spawn(system)?;
    match ending_within(system, &mut child, Duration::from_secs(u64::from(seconds))) {
        Ok(Some(status)) => Ok(Ran {
            command: asked,
            status,
        }),
        Ok(None) => {
            end(&mut child);
            Err(io::Error::from(io::ErrorKind::TimedOut))
        }
        Err(fault) => {
            end(&mut child);
            Err(fault)
        }
    }
}
