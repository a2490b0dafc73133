//! The steps of a server before it serves: its words are read, then what the table says of its services, and then the book of
//! the users' records and the slots of the mail are opened.
//!
//! [`ready`] takes them, over the devices of a world. Its contract says when there is a server and what it has: a door for each
//! worker, the rules of each service, the book and the slots; and of every other answer its cause, in the words, in the table's
//! text, in the records, in a slot, or in the count of a device that rose.
#![tactic(auto)]

mod doors;
mod reading;
mod readying;
mod server;
mod words;

pub use readying::ready;
pub use server::Ready;
pub use words::{Door, Plan, ServerLine};
