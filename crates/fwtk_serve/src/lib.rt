//! A server of many clients side by side, over one book and one spool.
//!
//! [`serve`] has a worker for each door. It serves the clients of its door, one after the other, by the rules of their
//! services, each over a port of its own onto the one book and a seat of its own at the one pool of slots, and gives them back
//! to the door. Meanwhile the thread that called hands on the mail. The [`Report`] says whom each worker served, how each session
//! ended, which entries of the one history are whose, what the rounds of handing on came to, and what became of the slots.
#![tactic(auto)]

mod beside;
mod choosing;
mod crew;
mod handing_on;
mod holding;
pub mod laws;
mod meeting;
mod passes;
mod report;
mod serving;
mod starting;
mod step;
mod sums;
mod worker;
mod working;

pub use acceptors::{Acceptor, Caller, Guest, Knock, Pacer};
pub use choosing::is_same_service;
pub use report::{Report, Served};
pub use serving::serve;
pub use smapd_queue::{Mailer, Round};
pub use spool_pool::PoolPass;
pub use spool_rack::Rack;
