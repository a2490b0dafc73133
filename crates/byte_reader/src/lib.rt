//! Reading fields from the front of bytes, with the exact first bad byte.
//!
//! Each reader answers what it read and the bytes after it, or a [`Stop`]: how many bytes there are from the first byte
//! on that can't go on any spelling of the field, which is 0 where the bytes end too early. A format is a chain of
//! readers, and what is proved of each reader goes on to the chain: that it reads exactly what is spelled, that its
//! first bad byte is the end of the longest beginning of any spelling, and that what a front decides stands whatever
//! follows the front. `specs/Exact.antt` has these three, `laws` has them of each reader here, and
//! `proofs/ReaderLemmas.antt` hands out how they go on to chains.
#![tactic(auto)]

mod fields;
pub mod laws;
mod stop;

pub use fields::{byte_of, bytes_of, long_number_of, short_of, text_of};
pub use stop::Stop;
