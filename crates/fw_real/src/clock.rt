ghost use Rattle.std.specs.Prelude.{◌≡◌, None};
ghost use Rattle.fw_outside.specs.ClockView.{GaveTime};
ghost use Rattle.fw_real.specs.Seconds.{seconds_of, untold_moments};

use std::snapshot::Snapshot;
use std::time::{Clock, Duration};

/// The clock of the system, in whole seconds since the first of January 1970.
#[derive(Drop)]
pub struct SystemClock<R> {
    system: R,
    read: Snapshot<Option<Duration>>,
}

// The whole seconds, or 0 where there are none.
fn seconds(since_1970: Option<Duration>) -> u64
    ensures { result ≡ seconds_of since_1970 }
{
    match since_1970 {
        Some(duration) => duration.as_secs(),
        None => 0,
    }
}

impl<R> SystemClock<R> {
    /// The clock of this system.
    pub fn new(system: R) -> SystemClock<R>
        ensures { result.system ≡ system }
    {
        SystemClock {
            system,
            read: Snapshot::of(&None),
        }
    }
}

impl<R: Clock> SystemClock<R> {
    // What the system's clock says, which is noted; nothing where it can't be read, or stands before 1970.
    fn read(&mut self) -> Option<Duration>
        ensures noted { self.new.read.value ≡ result }
        ensures system { self.new.system ≡ self.old.system }
    {
        let since_1970 = self.system.since_1970().ok();
        self.read = Snapshot::of(&since_1970);
        since_1970
    }
}

impl<R: Clock + Drop> fw_outside::Clock for SystemClock<R> {
    ghost clock_view = { λ _. untold_moments };

    /// The seconds since 1970, rounded down; 0 where the clock stands before that, or can't be read.
    fn now(&mut self) -> u64
        ensures gave { GaveTime result untold_moments untold_moments }
        ensures seconds { result ≡ seconds_of self.new.read.value }
        ensures system { self.new.system ≡ self.old.system }
    {
        let since_1970 = self.read();
        seconds(since_1970)
    }
}
