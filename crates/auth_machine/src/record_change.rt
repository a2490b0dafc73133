//! What a request changes.
use crate::Session;
use crate::user_record::UserRecord;
use fw_types::Name;

/// What becomes of the records.
#[derive(Drop)]
pub enum RecordChange {
    /// Nothing.
    Leave,
    /// This one stands under its name.
    Put(UserRecord),
    /// None stands under this name.
    Delete(Name),
}

/// What becomes of the session.
#[derive(Drop)]
pub enum SessionChange {
    /// Nothing.
    Stay,
    /// This.
    Become(Session),
    /// It is gone.
    End,
}

/// What becomes of the challenges.
#[derive(Drop)]
pub enum ChallengeChange {
    /// Nothing.
    Same,
    /// The session's own is gone.
    Drop,
    /// The session's own is gone, and the one of this name is the session's from now on.
    Take(Name),
    /// The one of this name is gone.
    Free(Name),
}
