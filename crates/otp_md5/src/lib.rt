//! One-time passwords with MD5, after RFC 2289.
//!
//! A user proves who they are by the one-time password before the one that was accepted last: `next` of it is the
//! kept one. The contracts say each result by the definitions of `specs/Passwords.antt`, which are those of the RFC
//! over the digest of the crate `md5`. Nothing here takes memory.
#![tactic(auto)]

mod challenge;
mod digits;
pub mod laws;
mod words;

pub use challenge::challenge_text;
pub use digits::read_hex;
pub use words::{fold, initial, next};
