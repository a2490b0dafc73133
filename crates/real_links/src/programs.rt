ghost use Rattle.std.specs.Prelude.{◌≡◌, true, pos, Some, IfSome};
ghost use Rattle.std.specs.List.{list_any};
ghost use Rattle.std.specs.Process.{exit_code};
ghost use Rattle.fw_outside.specs.Counts.{Rose, counted};
ghost use Rattle.fw_outside.specs.LauncherView.{Starts};
ghost use Rattle.real_links.specs.Programs.{IfEnded, RanAs, Runs, is_slash, untold_launcher};

use crate::command::command;
use crate::ran::{Ran, run};
use fw_outside::{Launcher, Started};
use fw_types::{Octets, OctetsList};
use std::alloc::Global;
use std::process::{ExitStatus, Processes};

/// Whether the program is named by a path.
pub(crate) fn has_slash(program: &[u8]) -> bool
    ensures { result ≡ list_any is_slash program.now }
{
    program.iter().any(|byte| *byte == b'/')
}

/// The status with which a program ended, or nothing where a signal ended it.
pub(crate) fn status_of(status: ExitStatus) -> Option<u8>
    ensures { IfSome result (λ ending. exit_code status ≡ Some (pos ending)) }
{
    match status.code() {
        Some(code) => u8::try_from(code).ok(),
        None => None,
    }
}

/// Runs programs of the system with the streams of this process, one at a time, and counts those that couldn't be run or
/// ended by a signal.
#[derive(Drop)]
pub struct Programs<R> {
    system: R,
    alloc: Global,
    last: Option<Ran>,
    faults: u64,
}

impl<R> Programs<R> {
    /// The programs of this system. Nothing is counted yet.
    pub fn new(system: R, alloc: Global) -> Programs<R>
        ensures { result.faults ≡ 0 }
    {
        Programs {
            system,
            alloc,
            last: None,
            faults: 0,
        }
    }

    // Notes what was run; the status with which it ended.
    fn note(&mut self, ran: Ran) -> Option<u8>
        ensures ended { IfSome result (λ ending. exit_code ran.status ≡ Some (pos ending)) }
        ensures noted { self.new.last ≡ Some ran }
        ensures same { self.new ≡ record self.old { last = self.new.last } }
    {
        let ending = status_of(ran.status);
        self.last = Some(ran);
        ending
    }

    fn fail(&mut self) -> Started
        ensures answer { result ≡ Started.Failed }
        ensures rose { Rose self.old.faults self.new.faults }
        ensures is { self.new ≡ record self.old { faults = counted self.old.faults } }
    {
        self.faults = self.faults.saturating_add(1);
        Started::Failed
    }
}

impl<R: Processes> Programs<R> {
    // Runs a program with these arguments.
    fn run_path(&self, program: &[u8], args: &[Octets]) -> Option<Ran>
        requires { list_any is_slash program.now ≡ true }
        ensures { IfSome result (Runs program.now args.now) }
    {
        let Ok(Some(command)) = command(self.alloc, program, args) else {
            return None;
        };
        match run(&self.system, command) {
            Ok(ran) => Some(ran),
            Err(_) => None,
        }
    }

    // Runs a program with these arguments, and notes it; the status with which it ended, or nothing.
    fn run(&mut self, program: &[u8], args: &[Octets]) -> Option<u8>
        ensures ran { IfSome result (λ ending. RanAs program.now args.now ending self.new.last) }
        ensures same { self.new ≡ record self.old { last = self.new.last } }
    {
        if !has_slash(program) {
            return None;
        }
        match self.run_path(program, args) {
            Some(ran) => self.note(ran),
            None => None,
        }
    }
}

impl<R: Processes + Drop> Launcher for Programs<R> {
    ghost launcher_view = { λ p. untold_launcher p.faults };

    /// A program without a slash isn't run, and neither is one of which a text isn't UTF-8 or has a byte 0.
    fn start(&mut self, program: &[u8], args: &OctetsList) -> Started
        ensures starts { Starts result program.now args.now
            (untold_launcher self.old.faults) (untold_launcher self.new.faults) }
        ensures ran { IfEnded result (λ ending. RanAs program.now args.now ending self.new.last) }
    {
        match self.run(program, args.as_slice()) {
            Some(ending) => Started::Ended(ending),
            None => self.fail(),
        }
    }
}
