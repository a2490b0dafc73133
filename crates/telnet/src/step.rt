/// What a byte of the client's text brings.
#[derive(Clone, Copy, Debug, PartialEq, Eq)]
pub enum TelnetStep {
    /// No line has ended.
    More,
    /// A line of at most 512 bytes has ended.
    Line,
    /// A line of more than 512 bytes has ended, which is dropped.
    TooLong,
}
