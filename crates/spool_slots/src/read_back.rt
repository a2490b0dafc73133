/// Why a message wasn't read.
#[derive(Clone, Copy, Debug, PartialEq, Eq)]
pub enum ReadBack {
    /// The disk failed, or it gave bytes that it can't hold.
    DiskFault,
    NoMemory,
}
