//! What no crash takes from a spool, as a law over all that may happen to its slots.
//!
//! It has no code of its own. `specs/` says what a spool is (`World.antt`), what may happen to it and when
//! (`Events.antt`), and what holds at any time (`Safe.antt`).
#![tactic(auto)]

pub mod laws;
