//! The authentication machine: who a user is, whether a password is right, and what a user may do.
//!
//! The definitions are in `specs/`: `State` has what stands and what a change leaves of it, `Login` and `Powers` what
//! each request is answered and changes, `Step` the step of the machine, and `History` which histories are legal. They
//! are plain data, over finite maps, and know nothing of a keeper's failures but whether something was kept.
//!
//! [`Book`] is that machine with a keeper beside it. [`Book::open`] reads all records that the keeper has, or names the
//! least bad one. [`Book::ask`] makes one entry of a request with its reply, unless as many are there as fit or there
//! is no memory, and the history is legal from the loaded records, whatever the answer; where a record changes, is made
//! or is deleted, the keeper is called, and has it or has failed; elsewhere it isn't called. [`Book::history`] says that the keeper's table, where it tells it,
//! is that of the records after the history. A book is a port for requests, whose entries are all its own.
//! [`Policy::of`] reads what the permission table says to `authsrv`. [`laws`] says what the machine comes to, of every
//! legal history.
#![tactic(auto)]

mod apply;
mod asking;
mod book;
mod change;
mod keeping;
pub mod laws;
mod loaded;
mod login;
mod machine_ref;
mod machine_state;
mod open_fault;
mod opening;
mod opening_session;
mod operation;
mod operation_request;
mod operations;
mod passwords;
mod policy;
mod port;
mod power;
mod powers;
mod record_change;
mod response;
mod rights;
mod room;
mod search;
mod session;
mod showing;
mod standing;
mod step;
mod user_record;
mod users;

pub use auth_events::{
    AuthPort, Denial, Entry, OpService, OtpNumber, PortFault, Reply, Request, Summary,
};
pub use book::Book;
pub use loaded::Loaded;
pub use open_fault::OpenFault;
pub use operation::{Holder, OperationLine};
pub use policy::Policy;
pub use port::BookOrigin;
pub use power::Power;
pub use record_change::{ChallengeChange, RecordChange, SessionChange};
pub use session::{Challenge, Phase, Session};
pub use user_record::UserRecord;
