//! A queue that threads share and that accounts for its items: what it began with and what was put are, up to order, what
//! stands in it and what was taken.
//!
//! A thread puts into a [`SharedQueue`] and takes from it with a [`QueuePass`]. What a pass knows is plain data that
//! contracts name: what the queue began with, what this pass put and took, how many of its counted takes gave none, and
//! how many of the 2^64 parts of all passes it has (`specs/Moves.antt`). So the pass that has all parts knows what stands
//! in the queue.
#![tactic(auto)]

mod log;
mod pass;
mod queue;
mod rule;
mod steps;

pub use pass::QueuePass;
pub use queue::SharedQueue;
