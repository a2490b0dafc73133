/// How a server's reply came out.
#[derive(Clone, Copy, Debug, PartialEq, Eq)]
pub enum Replied {
    /// All of it came. It has this code, and its last line tells this address and port, if it tells one.
    Whole {
        code: u16,
        six: Option<([u8; 4], u16)>,
    },
    /// The server's end came first.
    Ended,
}
