use crate::{Reply, Request};

/// One request with its reply, as it stands in a history.
#[derive(Drop)]
pub struct Entry {
    /// The session: the place in the history of the entry that opened it, from 0.
    pub sid: u64,
    /// The moment of the request, in seconds.
    pub at: u64,
    pub request: Request,
    /// Whether the change to the records, if any, was stored.
    pub kept: bool,
    pub reply: Reply,
}
