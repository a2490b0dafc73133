//! The ways of a relay: bytes from a source to a sink, and two such ways at once.
//!
//! [`copy_way`] gives what it takes, piece by piece, until the source's end, a failure, idleness or a limit. What it
//! gave is always a front of what it took, and all of it unless the sink failed within a piece. [`both_ways`] runs two
//! ways at once, and [`way_ending`] says how a session ends whose two ways ended so. Nothing here takes memory.
#![tactic(auto)]

mod both;
mod carrying;
mod copying;
mod ending;
mod way_end;

pub use both::both_ways;
pub use carrying::{carry_both, carry_way};
pub use copying::copy_way;
pub use ending::way_ending;
pub use way_end::WayEnd;
