use fw_types::Name;

/// Where a session waits.
#[derive(Drop)]
pub enum Place {
    /// For a line of the client.
    Waiting,
    /// For the record after this name, or for the first.
    Listing(Option<Name>),
}
