//! What a client of rlogin sends first (RFC 1282, on how a connection is established): its hello.
//!
//! A hello is four texts, each ended by a zero byte: an empty one, the client's user, the server's user, and the
//! terminal with its speed. Here the server's user is NAME@HOST, cut at the last `@`: so the client tells a gateway
//! where it wants to go. Each text has at most 256 bytes.
//!
//! [`Hello`] is fed a client's bytes and tells whether they are the front of a hello, a hello, or neither, by the
//! definition of whole texts in `specs/`; then it gives the hello's parts, and the hello that a server is given in its
//! place. Nothing takes memory. `laws` says what that definition comes to: which texts begin with which hello, and
//! which begin with none.
#![tactic(auto)]

mod fed;
mod hello;
pub mod laws;
mod server_user;
mod stage;
mod step;
mod texts;

pub use hello::Hello;
pub use step::HelloStep;
