/// What became of a program that was to be started.
#[derive(Clone, Copy, Debug, PartialEq, Eq)]
pub enum Started {
    /// It was started, and ended with this status.
    Ended(u8),
    /// No program ended with a status.
    Failed,
}
