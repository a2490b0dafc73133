//! Handing on the messages of a mail store: a round takes full slots, one after the other, and hands the message of each to a
//! mailer.
//!
//! [`smapd_round`] is a round. What it does is said turn by turn, and then what the turns come to, by the record `HandsOn` of
//! `specs/Round.antt`. [`laws`] says what follows.
#![tactic(auto)]

mod handing;
pub mod laws;
mod log_line;
mod puts;
mod queue;
mod round;
mod tally;
mod word;

pub use fw_mail::{Handed, Mailer};
pub use queue::{smapd_round, smapd_round_telling};
pub use round::{Round, RoundFault, Rounded, Trouble};
