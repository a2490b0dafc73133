use fw_types::Dest;

/// What a dialer was asked for.
#[derive(Drop)]
pub enum Ask {
    /// A link to a server.
    Main(Dest),
    /// A data link to a server.
    Side(Dest),
    /// A data link to this port of an IPv4 address.
    Back { addr: [u8; 4], port: u16 },
    /// A door for a data link. It opened at this IPv4 address and port, or not at all.
    Door { at: Option<([u8; 4], u16)> },
}
