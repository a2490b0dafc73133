use fw_types::Name;

/// How far a session is.
#[derive(Drop)]
pub enum Phase {
    /// Nobody was named, or what was asked for is done.
    Idle,
    /// A password of this user was asked for.
    Waiting { name: Name },
    /// A password was asked for of a user who isn't there.
    Bogus,
    /// This user is logged in.
    In { name: Name },
}

/// A session.
#[derive(Drop)]
pub struct Session {
    /// Its number: the place in the history of the entry that opened it.
    pub sid: u64,
    /// Whether it is at the console, where everything is allowed.
    pub console: bool,
    pub phase: Phase,
}

/// A challenge that stands: nobody else may ask for one of this user for a while.
#[derive(Drop)]
pub struct Challenge {
    /// The user's name.
    pub name: Name,
    /// The session that asked for it.
    pub sid: u64,
    /// When it was asked for, in seconds.
    pub at: u64,
}
