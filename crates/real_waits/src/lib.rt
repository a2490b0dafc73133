//! How the sockets of a session are waited for.
//!
//! An [`Activity`] is shared by the sources and the sinks of one session: it knows when a byte last came or went, and has the
//! client's socket. A wait that it makes ends where its own socket can be read, where nothing moved for long enough, or where
//! the client has gone.
#![tactic(auto)]

mod activity;
mod keeping;
mod looking;
mod patience;

pub use activity::{Activity, Waited, shared};
pub use patience::time_of;
