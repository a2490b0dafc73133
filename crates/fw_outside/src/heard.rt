use arrayvec::ArrayVec;

/// Why no line was heard.
#[derive(Clone, Copy, Debug, PartialEq, Eq)]
pub enum Stop {
    /// Nothing is left but a rest without an end, which is no line.
    End,
    /// Nothing came in time.
    Idle,
    /// The source failed.
    Failed,
    /// As many bytes were taken as may be. What was taken last isn't heard.
    Spent,
}

/// What a reader of lines hears.
#[derive(Drop)]
pub enum Heard {
    /// A line of at most 512 bytes, without its end.
    Line(ArrayVec<u8, 512>),
    /// A line of more than 512 bytes without its end, which is skipped.
    TooLong,
    /// No line.
    Stopped(Stop),
}
