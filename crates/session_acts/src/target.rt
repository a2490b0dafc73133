/// Where the client's data link is made.
#[derive(Clone, Copy, Debug, PartialEq, Eq)]
pub enum Target {
    /// To this port of an IPv4 address.
    Addr { addr: [u8; 4], port: u16 },
    /// At the door that stands.
    AtDoor,
}
