//! The lines of `authsrv`: what a client writes, and what it is answered.
//!
//! [`read_request`] reads a line, and its contract says the answer exactly, by the table of lines in
//! `specs/Request.antt`. [`wire_text`] writes the lines that a gateway asks, and [`read_request`] makes the same request of
//! each. [`reply_text`] writes a reply and [`read_reply`] reads one; both are proved against the one
//! text of each reply, `reply_line` of `specs/Reply.antt`. So `read_reply` gives a reply exactly for the text that
//! `reply_text` writes of it, but for the answer to an Open, whose text doesn't hold the session's number. All lines
//! are without their ends. [`next_word`] and its like give the words of a line, as every command reads them. None of these
//! takes memory.
#![tactic(auto)]

mod command;
mod denial;
pub mod laws;
mod number;
mod parts;
mod reply_reading;
mod reply_writing;
mod request;
mod request_writing;
mod summary;
mod wire;
mod words;

pub use denial::denial_text;
pub use reply_reading::read_reply;
pub use reply_writing::reply_text;
pub use request::read_request;
pub use request_writing::wire_text;
pub use wire::{Wire, WireFault};
pub use words::{has_no_word, next_word, one_or_two_words};
