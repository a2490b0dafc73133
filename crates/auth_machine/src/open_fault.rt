use fw_types::Name;

/// Why a book isn't opened.
#[derive(Drop)]
pub enum OpenFault {
    /// The keeper failed, and has counted it.
    LoadFault,
    /// The first name, in order, under which no record with that name stands, and the place of the first bad byte.
    BadRecord { name: Name, at: usize },
    /// There was no memory.
    NoMemory,
}
