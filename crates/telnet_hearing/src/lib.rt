//! What a client of Telnet says, line by line, from a source of bytes that comes in pieces.
//!
//! [`hear_line`] feeds the bytes of a [`LineReader`](fw_outside::LineReader) to a reader of Telnet, until a line ends or the
//! source stops. What is behind the line stays with the reader, as it came. Each line begins with a new reader of Telnet,
//! since behind a line nothing that came is still to be heard. [`laws`] says that the lines which are heard one after another
//! are those of the whole text.
#![tactic(auto)]

mod hearing;
pub mod laws;

pub use hearing::hear_line;
