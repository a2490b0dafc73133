//! What a port over a link comes to, if the server at its other end is honest: its replies are those of one legal history.
//!
//! [`laws`] says so of every port of `remote_port`, whatever was given to the server and taken from it.
#![tactic(auto)]

pub mod laws;
