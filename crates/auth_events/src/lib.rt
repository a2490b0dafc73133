//! What is asked of the service that knows the users, what it answers, and the port through which a program asks.
//!
//! [`Request`], [`Reply`] and [`Entry`] are plain data, which contracts see field by field. [`AuthPort`] is the trait
//! of whatever answers requests. Its one ghost member, [`Port`] of `specs/Port.antt`, says what history of entries the
//! port has seen, which of them are its own, and how often it failed; the clause on `ask` says what each answer does to
//! that. Each reply fits its request. `laws` says what holds of every port.
#![tactic(auto)]

mod denial;
mod entry;
pub mod laws;
mod otp_number;
mod port;
mod reply;
mod request;

pub use denial::Denial;
pub use entry::Entry;
pub use otp_number::OtpNumber;
pub use port::{AuthPort, PortFault};
pub use reply::{Reply, Summary};
pub use request::{OpService, Request};
