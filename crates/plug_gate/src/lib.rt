//! The plug: a session of `plug-gw`, which links a client to the one destination that a line of the table names.
//!
//! Its script is two acts: the connect line is logged, and the destination reached. Behind that `session_acts` relays what
//! the client and the server say, both ways at once, until both are done. [`plug_session`] holds a session over the devices
//! that it needs; [`laws`] says what it comes to in the subject's words.
#![tactic(auto)]

mod connect;
mod dummies;
pub mod laws;
mod script;
mod session;

pub use connect::{ConnectLine, connect_line};
pub use dummies::{NoClock, NoDice, NoPort};
pub use script::PlugScript;
pub use session::plug_session;
