/// Why a keeper didn't do what it was asked.
#[derive(Clone, Copy, Debug, PartialEq, Eq)]
pub enum KeepFault {
    /// The keeper failed, and has counted it.
    Failed,
    /// There was no memory.
    NoMemory,
}
