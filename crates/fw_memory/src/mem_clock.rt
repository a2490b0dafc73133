ghost use Rattle.std.specs.Prelude.{◌≡◌, ◌<◌, ◌^◌};
ghost use Rattle.fw_outside.specs.ClockView.{GaveTime};
ghost use Rattle.fw_memory.specs.CallCounter.{no_calls, one_call};
ghost use Rattle.fw_memory.specs.MemClockView.{clock_view_of, moment_next, moment_of};

use crate::call_counter::CallCounter;
use fw_outside::Clock;
use std::marker::Model;

/// A clock in memory.
#[derive(Drop)]
pub struct MemClock {
    moments: Vec<u64>,
    counter: CallCounter,
}

impl Model for MemClock {
    ghost use Rattle.fw_memory.specs.MemClockView.{MemClockView};

    ghost Value = { MemClockView };

    ghost view = { λ c. record { moments = c.moments.items; counter = c.counter } };
}

// The moment of a call by its number.
fn moment_of(moments: &[u64], call: usize) -> u64
    ensures { result ≡ moment_of moments.now call }
{
    let last = moments.len().saturating_sub(1);
    match moments.get(call.min(last)) {
        Some(moment) => *moment,
        None => 0,
    }
}

impl MemClock {
    /// A clock that gives these moments in order, and then the last one again and again; where there are none, it gives
    /// 0.
    pub fn new(moments: Vec<u64>) -> MemClock
        ensures { result ≡ record { moments = moments.items; counter = no_calls } }
    {
        MemClock {
            moments,
            counter: CallCounter::new(),
        }
    }

    fn moment(&self) -> u64
        ensures { result ≡ moment_next self.now }
    {
        if self.counter.is_over() {
            return moment_of(&self.moments, self.moments.len());
        }
        moment_of(&self.moments, self.counter.calls() as usize)
    }

    fn next_moment(&mut self) -> u64
        ensures answer { result ≡ moment_next self.old }
        ensures once { self.new ≡ record self.old { counter = one_call self.old.counter } }
        ensures fits { self.old.counter.calls < 2 ^ 64 }
    {
        let moment = self.moment();
        self.counter.count();
        moment
    }
}

impl Clock for MemClock {
    ghost clock_view = { clock_view_of };

    fn now(&mut self) -> u64
        ensures gave_time { GaveTime result (clock_view_of self.old) (clock_view_of self.new) }
        ensures answer { result ≡ moment_next self.old }
        ensures once { self.new ≡ record self.old { counter = one_call self.old.counter } }
    {
        self.next_moment()
    }
}
