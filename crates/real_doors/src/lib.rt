//! The doors of a server: who waits for clients at ports of this host.
//!
//! A [`TcpAcceptor`] is the acceptor over the real thing: it waits at a listener, which all doors of one port share, and
//! hands each client out with real devices. [`open_doors`] makes the doors of a server, and a [`Closer`] that ends them.
//! [`HostNames`] tells the names of clients, and [`SystemPacer`] rests between rounds of work.
#![tactic(auto)]

mod accepting;
mod closer;
mod entrance;
mod guests;
mod host_names;
mod opening;
mod system_pacer;
mod tcp_acceptor;

pub use closer::Closer;
pub use guests::TcpCaller;
pub use host_names::HostNames;
pub use opening::{Doors, Site, open_doors};
pub use system_pacer::SystemPacer;
pub use tcp_acceptor::TcpAcceptor;
