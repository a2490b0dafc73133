use fw_types::{Dest, Name};
use session_acts::Target;

/// How far a client has come with a login.
#[derive(Drop)]
pub enum Account {
    /// No session is open at the port.
    Unopened,
    /// One is. The name was the last to be asked about; and a login stands, or not.
    Opened { name: Name, logged_in: bool },
}

/// What a session knows.
#[derive(Drop)]
pub struct State {
    pub account: Account,
    /// The destination to which a link is up, if one is.
    pub dest: Option<Dest>,
    /// Where the client's data link of the next transfer is to come from, if that is set.
    pub setting: Option<Target>,
}

/// Where a session waits.
#[derive(Drop)]
pub enum Place {
    /// For a line of its client.
    Listening { state: State },
    /// For a reply of the server, which is passed. Behind the last one the session is over, or its client is heard.
    Answering { state: State, quits: bool },
    /// For a reply of the server behind a transfer that ended early, which isn't passed.
    Dropping { state: State },
}
