/// How a session ended.
#[derive(Clone, Copy, Debug, PartialEq, Eq)]
pub enum Ending {
    /// The client had no more to say, or the dialogue was over.
    Done,
    /// The table denies the client, by the line of this number, from 1; 0 where no line fits.
    Denied { line: u32 },
    /// The client's source or sink failed.
    ClientFault,
    /// The link to the server of a gateway failed.
    ServerFault,
    /// The log failed.
    LogFault,
    /// The service that knows the users failed, or answered what it never answers.
    AuthFault,
    /// Nothing came in time.
    Idle,
    /// The server of a gateway couldn't be reached.
    NoRoute,
    /// As many bytes were taken as may be.
    Spent,
    /// There was no memory.
    NoMemory,
}
