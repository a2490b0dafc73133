//! An authentication server at the other end of a link, as a port: a gateway asks it in the lines of `authsrv`.
//!
//! [`RemotePort`] is an `AuthPort` over a source and a sink. It opens one session at the server, gives the line of each
//! request, and reads the line of its reply; what the server may not be asked it refuses by itself. After a failure of
//! the link, or a line that answers nothing, it asks no more. Its contract says what each request does to the port and
//! to both ends, and that what was given and taken are the lines of its entries.
#![tactic(auto)]

mod answer;
mod converse;
pub mod laws;
mod link;
mod origin;
mod outcome;
mod port;
mod request;
mod standing;
mod talk;

pub use origin::RemoteOrigin;
pub use port::RemotePort;
pub use standing::Standing;
