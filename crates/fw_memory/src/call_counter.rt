ghost use Rattle.std.specs.Prelude.{◌≡◌, ◌<◌, ◌^◌};
ghost use Rattle.fw_memory.specs.CallCounter.{no_calls, one_call};

use std::marker::Model;

/// The calls of a device in memory: how many there were, and whether that was more than can be counted.
#[derive(Drop)]
pub(crate) struct CallCounter {
    calls: u64,
    over: bool,
}

impl Model for CallCounter {
    ghost use Rattle.std.specs.Prelude.{◌<◌, ◌^◌};
    ghost use Rattle.fw_memory.specs.CallCounter as spec;

    ghost Value = { spec.CallCounter };

    ghost view = { λ t. record { calls = t.calls; over = t.over } };
}

impl CallCounter {
    pub(crate) fn new() -> CallCounter
        ensures { result ≡ no_calls }
    {
        CallCounter {
            calls: 0,
            over: false,
        }
    }

    /// Counts one call more.
    pub(crate) fn count(&mut self)
        ensures is { self.new ≡ one_call self.old }
        ensures fits { self.old.calls < 2 ^ 64 }
    {
        if self.calls == u64::MAX {
            self.over = true;
        }
        self.calls = self.calls.wrapping_add(1);
    }

    /// The number of the next call, counted around after 2^64 - 1.
    pub(crate) fn calls(&self) -> u64
        ensures { result ≡ self.now.calls }
    {
        self.calls
    }

    /// Whether there were more calls than can be counted.
    pub(crate) fn is_over(&self) -> bool
        ensures { result ≡ self.now.over }
    {
        self.over
    }
}
