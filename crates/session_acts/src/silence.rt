/// Why nothing was heard of a client or a server.
#[derive(Clone, Copy, Debug, PartialEq, Eq)]
pub enum Silence {
    /// Nothing came in time.
    Quiet,
    /// The source failed.
    Broken,
    /// As many bytes were taken as may be.
    Limit,
}
