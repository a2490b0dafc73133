//! The Telnet gateway: a session of `tn-gw`, which asks who a client is where the table wants to know that, and links it to
//! the destinations that the table permits.
//!
//! Its rows stand in `specs/Dialogue.antt`. [`tn_session`] holds a session over the devices that it needs, with the relay at
//! its end, as `session_acts` says it of all sessions; [`TnScript`] has the rows, for whoever runs them over other devices.
//! [`laws`] says what a session comes to in the subject's words.
#![tactic(auto)]

mod command;
mod commands;
mod dummies;
pub mod laws;
mod log_lines;
mod login;
mod place;
mod script;
mod session;
mod texts;

pub use command::{Command, read_command};
pub use dummies::NoDice;
pub use place::Place;
pub use script::TnScript;
pub use session::tn_session;
