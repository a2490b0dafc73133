use thiserror::Error;

/// Bytes that are no record's bytes.
#[derive(Clone, Copy, Debug, PartialEq, Eq, Error)]
#[error("no record from byte {at} on")]
pub struct RecordFault {
    /// The length of the longest prefix that begins some record's bytes: the place of the first bad byte, or the
    /// bytes' length where they end too early.
    pub at: usize,
}
