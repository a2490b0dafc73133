/// What a byte did to a server's text (RFC 959, 4.2).
#[derive(Clone, Copy, Debug, PartialEq, Eq)]
pub enum ReplyStep {
    /// The line goes on.
    More,
    /// It ended a line, and the reply goes on.
    Line,
    /// It ended a line and the reply, whose code is this, from 0 to 999.
    Last { code: u16 },
}
