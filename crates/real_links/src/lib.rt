//! Links to other hosts over TCP, and programs of the system.
//!
//! [`TcpDialer`] makes links, each a [`LinkSource`] and a [`LinkSink`] with a handle of its own of one socket, and opens
//! doors, at each of which a [`TcpDoor`] waits for one client alone; and [`Programs`] runs programs with the streams of
//! this process. They are the dialer and the launcher of `fw_outside`
//! over the real thing: none tells what it holds, and each counts its failures in counts of 64 bits that stand still at
//! their last value.
//!
//! [`MailerProgram`] is the mailer of `fw_mail` over a program: it hands a message to it, waits so long at most, and goes
//! by the status with which it ended.
//!
//! [`RemoteSource`] and [`RemoteSink`] are the ends of a link to a server that may not have come up.
//!
//! A [`LinkSink`] over [`StandardOutput`] is the sink to a client whom inetd or systemd handed over: its end is told too.
//!
//! A name is looked up only if no resolver can take it for an address ([`can_be_looked_up`]), and a program is run only
//! if it is named by a path with a slash.
#![tactic(auto)]

mod address;
mod body_file;
mod client_hosts;
mod command;
mod dialer;
mod door;
mod door_ports;
mod ending;
mod link;
mod link_sink;
mod link_source;
mod mail_words;
mod mailer_program;
mod missed;
mod names;
mod programs;
mod ran;
mod remote_sink;
mod remote_source;
mod standard_output;
mod taken;
mod wait;

pub use address::Address;
pub use client_hosts::ClientHosts;
pub use dialer::TcpDialer;
pub use door::TcpDoor;
pub use door_ports::DoorPorts;
pub use link_sink::LinkSink;
pub use link_source::LinkSource;
pub use mailer_program::MailerProgram;
pub use names::can_be_looked_up;
pub use programs::Programs;
pub use remote_sink::RemoteSink;
pub use remote_source::RemoteSource;
pub use standard_output::StandardOutput;
