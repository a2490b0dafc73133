//! The records of users, and their bytes.
//!
//! A keeper stores a record as bytes. `encode` writes them, in version 2, and `decode` reads them in version 1 too, which
//! has neither the last right response nor the end. Both are proved against the spellings of `specs/Spelling.antt`: `decode`
//! gives a record exactly for the bytes that `encode` writes of it and, where its `last` and `expires` are 0, for its bytes
//! in version 1. Of all other bytes it names the first bad one: `RecordFault::at` is the length of the longest prefix that
//! begins some record's bytes in either version. `decode`, and all that reads a name or a seed, takes no memory.
#![tactic(auto)]

mod decoding;
mod encoding;
mod fault;
mod fields;
pub mod laws;
mod long_name;
mod record;
mod seed;

pub use decoding::decode;
pub use encoding::encode;
pub use fault::RecordFault;
pub use long_name::LongName;
pub use record::{Otp, Plain, Proto, Record, Wiz};
pub use seed::Seed;
