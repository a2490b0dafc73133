//! One client of a service: what the rules decide of it is logged, its session is held or it is turned away, and how that
//! ended is logged.
//!
//! [`conn`] serves a client by the rules of its service, and [`console`] holds a session of `authsrv` at the console.
#![tactic(auto)]

mod admitting;
mod deciding;
mod decision;
mod denying;
mod endings;
mod ftp_serving;
mod gating;
mod linking;
mod mailing;
mod serving;
mod waiting;

pub use admitting::console;
pub use deciding::verdict_of;
pub use decision::{LogLine, decision_line, verdict_line, verdict_word};
pub use endings::{denied_line, denied_words, ending_line};
pub use serving::conn;
