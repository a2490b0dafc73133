//! How long is waited.

use std::time::Duration;

/// So many seconds, or the shortest time that a socket can wait.
pub fn time_of(seconds: u32) -> Duration {
    if seconds == 0 {
        Duration::from_micros(1)
    } else {
        Duration::from_secs(u64::from(seconds))
    }
}

/// As many nanoseconds, up to 2^64 - 1, which are 584 years.
pub(crate) fn nanos_of(time: Duration) -> u64 {
    u64::try_from(time.as_nanos()).unwrap_or(u64::MAX)
}

/// As many milliseconds for a wait of the system, rounded up, and 24 days at most.
pub(crate) fn millis_of(nanos: u64) -> i32 {
    i32::try_from(nanos.div_ceil(1_000_000)).unwrap_or(i32::MAX)
}
