//! The plain types that all of the firewall's programs speak of: names, hosts, peers, destinations, ports, verbs,
//! numbers, lists of bytes and messages of mail, and how a session ends.
//!
//! Each is read exactly: [`Host::read`], [`HostName::read`], [`Name::read`], [`Verb::read`], [`read_number`],
//! [`read_port`] and [`read_quad`] give a value exactly for the texts that they say. A host's name is put to lower case
//! and a verb to upper case, so what is written of them is the text that was read but for its capitals; addresses and
//! names of users are written as they were read.
#![tactic(auto)]

mod bytes;
mod dest;
mod ending;
mod host;
mod host_name;
mod message;
mod name;
mod no_memory;
mod number;
mod octets;
mod octets_list;
mod peer;
mod port;
mod quad;
mod short;
mod verb;
mod verb_list;

pub use bytes::{append, append_byte, append_decimal, append_u32, copy_of, lower_copy_of};
pub use dest::Dest;
pub use ending::Ending;
pub use host::Host;
pub use host_name::HostName;
pub use message::Message;
pub use name::{Name, is_name_byte};
pub use no_memory::NoMemory;
pub use number::{in_range, read_number};
pub use octets::Octets;
pub use octets_list::OctetsList;
pub use peer::Peer;
pub use port::{read_numbered_port, read_port};
pub use quad::{dotted_quad, read_quad};
pub use verb::Verb;
pub use verb_list::VerbList;
