/// Why a session stopped at an act.
#[derive(Clone, Copy, Debug, PartialEq, Eq)]
pub enum Cause {
    /// The client's source or sink failed.
    ClientFault,
    /// The server's source or sink failed.
    ServerFault,
    /// The log failed.
    LogFault,
    /// The port failed, or something strange came from it.
    AuthFault,
    /// The client or the server said nothing in time.
    Idle,
    /// The server couldn't be reached.
    NoRoute,
    /// As many bytes were taken from the client, or from the server, as may be.
    Spent,
    /// There was no memory.
    NoMemory,
}
