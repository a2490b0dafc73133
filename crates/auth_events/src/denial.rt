/// Why a request was refused.
#[derive(Clone, Copy, Debug, PartialEq, Eq)]
pub enum Denial {
    /// There is no such user.
    Unknown,
    /// The response was wrong.
    Wrong,
    /// The user may not log in.
    Disabled,
    /// The user may no longer log in; in seconds, the moment from which that holds.
    Expired { at: u64 },
    /// Too many wrong responses; in seconds, the moment from which the user may try again.
    Sleeping { until: u64 },
    /// Another session's challenge stands; its number, and in seconds the moment up to which it stands.
    Busy { sid: u64, until: u64 },
    /// No one-time password is left.
    Exhausted,
    /// No challenge and no password was asked for.
    NoChallenge,
    /// Nobody is logged in.
    NotIn,
    /// The user is no wizard over that record.
    NotWizard,
    /// There is such a user already.
    Exists,
    /// There is no such record.
    NoSuch,
    /// The line of the table that refuses the operation, from 1; 0 where no line fits.
    NoRule { line: u32 },
    /// No more entries fit; how many fit.
    Full { limit: u64 },
    /// The session isn't open.
    Closed,
    /// The change couldn't be stored.
    NotKept,
}
