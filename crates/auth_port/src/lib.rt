//! The ports through which gateways ask the authentication machine.
//!
//! [`OwnBook`] is a book that one program has for itself: all entries of its history are its own. What asking it does is
//! said by the trait `AuthPort` of `auth_events`, and that its replies are those of a legal history, by `auth_machine`.
//! [`SharedBook`] is a book that threads share by turns: each has a pass of one lock, and all replies are those of one
//! legal history, of which each port has seen a front. [`Asking`] is the call that it makes in its turn. [`FaultyPort`]
//! is a book whose port fails at the calls that it is told, for tests.
#![tactic(auto)]

mod asking;
mod faulty_port;
mod shared_book;
mod shared_origin;

pub use asking::{Answered, Asking};
pub use auth_events::{AuthPort, PortFault};
pub use auth_machine::{Book, BookOrigin};
pub use faulty_port::FaultyPort;
pub use shared_book::SharedBook;
pub use shared_origin::SharedOrigin;
pub use turn_lock::{Pass, Turns};

/// A book of one's own as a port.
pub type OwnBook<K> = Book<K>;
