/// What a round came to: of each turn whose line was given whole, one of these. A turn in which the disk of the slot failed
/// counts as broken, and else as the mailer answered.
#[derive(Clone, Copy, Debug, PartialEq, Eq)]
pub struct Round {
    pub accepted: u32,
    pub refused: u32,
    pub failed: u32,
    pub broken: u32,
}

/// Why a round ended early, and what it came to until then. The slot in hand was put where it belongs.
#[derive(Clone, Copy, Debug, PartialEq, Eq)]
pub enum RoundFault {
    /// There was no memory to read a message, or to hand it over.
    NoMemory(Round),
    /// The log failed.
    LogFault(Round),
}

/// The device that failed in a turn.
#[derive(Clone, Copy, Debug, PartialEq, Eq)]
pub enum Trouble {
    Mailer,
    /// The disk of the slot of this number.
    Disk(u32),
}

/// What a round answers, and the device that failed in the first turn in which one did.
#[derive(Drop)]
pub struct Rounded {
    pub answer: Result<Round, RoundFault>,
    pub trouble: Option<Trouble>,
}
