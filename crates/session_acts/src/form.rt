/// In which form a client is heard.
#[derive(Clone, Copy, Debug, PartialEq, Eq)]
pub enum Form {
    /// As lines of at most 512 bytes, which end at LF.
    Lines,
    /// As lines of at most 512 bytes of what a client of Telnet says (RFC 854), without its commands.
    Telnet,
}
