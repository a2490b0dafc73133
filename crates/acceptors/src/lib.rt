//! Who waits for the clients of a server.
//!
//! An [`Acceptor`] hands out clients with the devices of their sessions, and takes them back afterwards. [`MemAcceptor`]
//! hands out clients that it was given, and fails as it is told, for tests. A [`Pacer`] rests between rounds of work;
//! [`MemPacer`] doesn't.
#![tactic(auto)]

mod acceptor;
mod caller;
mod mem_acceptor;
mod pacer;

pub use acceptor::{Acceptor, CallerOf};
pub use caller::{Caller, Guest, Knock};
pub use mem_acceptor::{MemAcceptor, MemCaller};
pub use pacer::{MemPacer, Pacer};
