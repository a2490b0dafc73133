//! A value that threads share by taking turns, with one list of entries of which each pass knows a front.
//!
//! [`Turns`] holds a value that stands for a list of entries ([`StandsFor`]). A [`Pass`] goes with a thread: with it the
//! thread waits for its turn and applies a call ([`TurnCall`]) to the value, which makes one entry or none
//! ([`Turns::with_turn`]). A pass has no bytes. What it knows is plain data that contracts name: the front of the list
//! that it has seen, and the places of its own entries (`specs/Known.antt`).
#![tactic(auto)]

mod ending;
mod pass;
mod plays;
mod rule;
mod stands_for;
mod steps;
mod turns;
mod view;

pub use pass::Pass;
pub use stands_for::{StandsFor, TurnCall};
pub use turns::Turns;
