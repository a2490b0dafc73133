/// What becomes of a server's reply.
#[derive(Clone, Copy, Debug, PartialEq, Eq)]
pub enum ReplyUse {
    /// The client is given it as it comes.
    Passed,
    /// It is read, and the client is given nothing.
    Dropped,
    /// It greets a session: the client is given it, unless its code begins with 2.
    Greeting,
}
