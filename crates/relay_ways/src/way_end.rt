/// How a way ended.
#[derive(Clone, Copy, Debug, PartialEq, Eq)]
pub enum WayEnd {
    /// The source is at its end, all that was taken was given, and the sink was told that no more comes.
    Done,
    /// The source failed.
    ReadFault,
    /// The sink failed, within a piece or when it was told that no more comes.
    WriteFault,
    /// Nothing came in time.
    Idle,
    /// As many bytes as may be were taken, and all were given.
    Spent,
}
