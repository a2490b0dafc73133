/// As what a link was asked for: its source and its sink tell it.
#[derive(Clone, Copy, Debug, PartialEq, Eq)]
pub enum Mark {
    /// It came by no dialer.
    Own,
    /// A link to a server.
    Main,
    /// A data link to a server.
    Side,
    /// A data link to a port of an address.
    Back,
    /// A data link that was accepted at a door.
    Door,
}
