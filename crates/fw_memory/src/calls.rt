ghost use Rattle.std.specs.Prelude.{◌≡◌, ◌==◌, [], IfOk};
ghost use Rattle.std.specs.List.{list_any};
ghost use Rattle.fw_memory.specs.CallsView.{comes_at, calls_of};

use fw_types::NoMemory;
use std::alloc::Global;
use std::marker::Model;

#[derive(Drop)]
enum CallSet {
    Never,
    At(Vec<u64>),
    Onward(u64),
}

/// The calls of a device in memory, numbered from 0, at which it is told to do something.
#[derive(Drop)]
pub struct Calls {
    told: CallSet,
}

impl Model for Calls {
    ghost use Rattle.fw_memory.specs.CallsView.{CallsView, calls_of};

    ghost Value = { CallsView };

    ghost view = { λ calls. calls_of calls.told };
}

fn copy_of_set(alloc: Global, told: &CallSet) -> Result<CallSet, NoMemory>
    ensures { IfOk result (λ copy. calls_of copy ≡ calls_of told.now) }
{
    match told {
        CallSet::Never => Ok(CallSet::Never),
        CallSet::At(numbers) => Ok(CallSet::At(Vec::from_slice(alloc, numbers)?)),
        CallSet::Onward(first) => Ok(CallSet::Onward(*first)),
    }
}

fn is_listed(numbers: &[u64], call: u64) -> bool
    ensures { result ≡ list_any (λ number. number == call) numbers.now }
{
    numbers.iter().any(|number| *number == call)
}

impl Calls {
    /// No call.
    pub fn none() -> Calls
        ensures { result ≡ record { listed = []; onward = None } }
    {
        Calls {
            told: CallSet::Never,
        }
    }

    /// The calls with these numbers.
    pub fn of(alloc: Global, numbers: &[u64]) -> Result<Calls, NoMemory>
        ensures { IfOk result (λ calls. calls ≡ record { listed = numbers.now; onward = None }) }
    {
        let numbers = Vec::from_slice(alloc, numbers)?;
        Ok(Calls {
            told: CallSet::At(numbers),
        })
    }

    /// The call with this number, and all later ones.
    pub fn onward(first: u64) -> Calls
        ensures { result ≡ record { listed = []; onward = Some first } }
    {
        Calls {
            told: CallSet::Onward(first),
        }
    }

    /// The same calls.
    pub fn copy(&self, alloc: Global) -> Result<Calls, NoMemory>
        ensures { IfOk result (λ calls. calls ≡ self.now) }
    {
        Ok(Calls {
            told: copy_of_set(alloc, &self.told)?,
        })
    }

    /// Whether the call with this number is one of them.
    pub fn contains(&self, call: u64) -> bool
        ensures { result ≡ comes_at self.now call }
    {
        match &self.told {
            CallSet::Never => false,
            CallSet::At(numbers) => is_listed(numbers, call),
            CallSet::Onward(first) => *first <= call,
        }
    }
}
