//! A session of the authentication server, from a client's bytes to replies.
//!
//! The contract of [`authsrv_session`] is the run of its rows, which stand in `specs/Dialogue.antt` as the dialogue
//! does, then the Close that is owed, then the ending by its cause, as `session_acts` says it of all sessions.
//! [`AuthsrvScript`] has these rows, for whoever runs them over other devices. [`laws`] says what they come to at the
//! client, the port, the clock and the dice.
#![tactic(auto)]

pub mod laws;
mod place;
mod rows;
mod script;
mod session;

pub use place::Place;
pub use script::AuthsrvScript;
pub use session::authsrv_session;
