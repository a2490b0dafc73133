/// The two ends of the connection to a client: the IPv4 address at which it came in, and the client's own.
#[derive(Clone, Copy, Debug, PartialEq, Eq)]
pub struct ClientHosts {
    pub here: [u8; 4],
    pub there: [u8; 4],
}
