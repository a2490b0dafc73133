//! The lines of the File Transfer Protocol (RFC 959): commands, replies, and the six numbers of an address and a port.
//!
//! [`read_command`] reads a client's line, [`ReplyReader`] is fed a server's bytes and tells where each reply ends,
//! and what code its first line tells ([`ReplyReader::first_code`]); [`read_six`] reads the argument of `PORT`,
//! [`find_six`] finds the numbers in the reply to `PASV`, and [`write_six`] writes them. Each is exact in both
//! directions, by the definitions of `specs/`. Nothing here takes memory.
#![tactic(auto)]

mod code;
mod command;
mod fed;
pub mod laws;
mod opening;
mod reply_line;
mod reply_reader;
mod reply_step;
mod six;
mod six_parts;

pub use code::ending_code;
pub use command::{Command, read_command};
pub use reply_reader::ReplyReader;
pub use reply_step::ReplyStep;
pub use six::{find_six, read_six, write_six};
