//! What all sessions share: their acts, and all that stands around a dialogue.
//!
//! A session hears a client, writes a log, asks a port and speaks to a server over a link. [`Stage`] has one method for each
//! of these acts, whose clause says what the act does, or at which of them the session stops and for which [`Cause`]. A kind
//! of session is a [`Script`]: its places, and the rows of acts that it runs from each. [`session_over`] runs a script over
//! the devices, hangs up a link that is up, asks Close of a session that is open, and tells the ending.
//!
//! A row is a function over any stage that ensures `Ran`. The ruleset `acting` of `proofs/Acting.antt` follows its acts:
//! `did` and `did_at` where an act was done, `halted` and `halted_at` where one stopped. [`laws`] says what every session
//! comes to at the client, the log and the dialer, whatever its script.
#![tactic(auto)]

mod cause;
mod causes;
mod denying;
mod deposited;
mod depositing;
mod desk;
mod dummies;
mod form;
mod greeting;
mod joined;
mod joining;
pub mod laws;
mod link;
mod logged;
mod mailing;
mod pair;
mod relayed;
mod relaying;
mod replied;
mod reply_use;
mod replying;
mod script;
mod session;
mod silence;
mod stage;
mod target;
mod telling;
mod toward;

pub use cause::Cause;
pub use denying::{Denying, NoPlace};
pub use deposited::Deposited;
pub use dummies::{NoDisk, NoDoor, NoSource, NoStore, Nowhere, Silent};
pub use form::Form;
pub use joined::Joined;
pub use logged::Logged;
pub use mailing::mail_session_over;
pub use relayed::relayed_over;
pub use replied::Replied;
pub use reply_use::ReplyUse;
pub use script::Script;
pub use session::session_over;
pub use silence::Silence;
pub use stage::Stage;
pub use target::Target;
pub use telling::{log_and_tell, tell};
pub use toward::Toward;
