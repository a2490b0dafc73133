ghost use Rattle.std.specs.Prelude.{◌≡◌, ◌∷◌, [], ◌++◌, get_or, IfOk, OnOk, OnErr};
ghost use Rattle.fw_outside.specs.Counts.{Rose, counted};
ghost use Rattle.fw_outside.specs.LauncherView.{Starts};
ghost use Rattle.fw_memory.specs.CallsView.{comes_at};
ghost use Rattle.fw_memory.specs.MemLauncherView.{AnswersAsTold, answer_next, launcher_view_of, one_more};

use crate::Calls;
use fw_outside::{Launcher, Started};
use fw_types::{NoMemory, Octets, OctetsList};
use std::alloc::Global;
use std::marker::Model;

/// A launcher in memory, which starts nothing: it answers as it is told, and notes what it was to start.
#[derive(Drop)]
pub struct MemLauncher {
    alloc: Global,
    answers: Vec<u8>,
    fails: Calls,
    calls: u64,
    started: Vec<(Octets, OctetsList, u8)>,
    faults: u64,
}

impl Model for MemLauncher {
    ghost use Rattle.fw_memory.specs.MemLauncherView.{MemLauncherView};

    ghost Value = { MemLauncherView };

    ghost view = { λ m. record {
      answers = m.answers.items;
      fails = m.fails;
      calls = m.calls;
      started = m.started.items;
      faults = m.faults;
    } };
}

// The answer of a call by its number.
fn answer_of(answers: &[u8], call: u64) -> u8
    ensures { result ≡ get_or answers.now call 0 }
{
    match answers.get(call as usize) {
        Some(answer) => *answer,
        None => 0,
    }
}

/// An equal list.
pub(crate) fn copy_of(alloc: Global, items: &[Octets]) -> Result<OctetsList, NoMemory>
    ensures { IfOk result (λ copy. copy ≡ items.now) }
{
    let mut copy = OctetsList::new(alloc);
    for item in items {
        if copy.push(Octets::copy(alloc, item.bytes())?).is_err() {
            return Err(NoMemory);
        }
    }
    Ok(copy)
}

impl MemLauncher {
    /// A launcher whose calls are numbered from 0. Those in `fails` fail; any other answers `Ended` with the member at
    /// its number, and with 0 past the list. Memory for what was started comes from `alloc`: where there is none, the
    /// call fails.
    pub fn new(alloc: Global, answers: Vec<u8>, fails: Calls) -> MemLauncher
        ensures { result ≡ record { answers = answers.items; fails = fails; calls = 0; started = []; faults = 0 } }
    {
        MemLauncher {
            alloc,
            answers,
            fails,
            calls: 0,
            started: Vec::new(alloc),
            faults: 0,
        }
    }

    /// The programs that were started, with their arguments and how they ended.
    pub fn started(&self) -> &[(Octets, OctetsList, u8)]
        ensures { result.now ≡ self.now.started }
    {
        &self.started
    }

    // The answer of the next call, if that doesn't fail.
    fn next_answer(&self) -> u8
        ensures { result ≡ answer_next self.now }
    {
        answer_of(&self.answers, self.calls)
    }

    // One more call, which is told to fail or not.
    fn is_failing(&mut self) -> bool
        ensures answer { result ≡ comes_at self.old.fails self.old.calls }
        ensures is { self.new ≡ one_more self.old }
    {
        let call = self.calls;
        self.calls = call.saturating_add(1);
        self.fails.contains(call)
    }

    // Notes a program and how it ended.
    fn note(&mut self, program: &[u8], args: &OctetsList, ending: u8) -> Result<(), NoMemory>
        ensures ok { OnOk result (self.new ≡
            record self.old { started = self.old.started ++ (program.now, args.now, ending) ∷ [] }) }
        ensures err { OnErr result (self.new ≡ self.old) }
    {
        let program = Octets::copy(self.alloc, program)?;
        let args = copy_of(self.alloc, args.as_slice())?;
        self.started.push((program, args, ending))?;
        Ok(())
    }

    fn fail(&mut self) -> Started
        ensures answer { result ≡ Started.Failed }
        ensures rose { Rose self.old.faults self.new.faults }
        ensures is { self.new ≡ record self.old { faults = counted self.old.faults } }
    {
        self.faults = self.faults.saturating_add(1);
        Started::Failed
    }
}

impl Launcher for MemLauncher {
    ghost launcher_view = { launcher_view_of };

    fn start(&mut self, program: &[u8], args: &OctetsList) -> Started
        ensures starts { Starts result program.now args.now (launcher_view_of self.old) (launcher_view_of self.new) }
        ensures answer { AnswersAsTold result program.now args.now self.old self.new }
    {
        let answer = self.next_answer();
        if self.is_failing() {
            return self.fail();
        }
        match self.note(program, args, answer) {
            Ok(()) => Started::Ended(answer),
            Err(NoMemory) => self.fail(),
        }
    }
}
