//! What a step of a worker came to.

/// A step of a worker.
#[derive(Clone, Copy)]
pub(crate) enum Step {
    /// A client was served.
    Served,
    /// No more come, or waiting failed.
    Over,
    /// There was no memory to report one more.
    Short,
}
