use fw_types::Name;

/// Where a session waits for a line of its client.
#[derive(Drop)]
pub enum Place {
    /// For a name; whether a session is open at the port.
    Naming { is_open: bool },
    /// For the response of this user, which is hidden while it is typed, or not.
    Answering { name: Name, hidden: bool },
    /// For a command.
    Commanding,
}
