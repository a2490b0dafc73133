//! The FTP gateway: a session of `ftp-gw`, which links a client to a server that the table permits, asks who the client is
//! where the table wants to know that, keeps denied commands from the server, and carries the data itself.
//!
//! Its rows stand in `specs/Dialogue.antt`. [`ftp_session`] holds a session over the devices that it needs;
//! [`FtpScript`] has the rows, for whoever runs them over other devices. [`laws`] says what a session comes to in the
//! subject's words.
#![tactic(auto)]

mod commands;
mod copies;
mod destinations;
mod dummies;
mod greeting;
mod kind;
pub mod laws;
mod log_lines;
mod login;
mod order;
mod passing;
mod place;
mod replies;
mod script;
mod session;
mod settings;
mod texts;
mod transfers;
mod user;
mod verbs;

pub use dummies::NoDice;
pub use kind::{Kind, Outward, Served, kind_of};
pub use order::Order;
pub use place::{Account, Place, State};
pub use script::FtpScript;
pub use session::ftp_session;
pub use user::{UserAt, read_user};
