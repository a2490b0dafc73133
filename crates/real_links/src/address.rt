/// An IPv4 address, and a port there.
#[derive(Clone, Copy, Debug, PartialEq, Eq)]
pub struct Address {
    pub host: [u8; 4],
    pub port: u16,
}
