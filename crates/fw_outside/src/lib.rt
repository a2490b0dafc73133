//! What the firewall's programs meet outside themselves: bytes that come, bytes that go, files, a clock, dice, the
//! keeper of the users' records, the dialer that makes links to other hosts, and the launcher that starts programs.
//!
//! Each kind of device is a trait with one ghost member, a plain record that says what the device means: what was taken
//! from it and is left, what was given to it, and how often it failed. Each method has a clause that says what its
//! answer does to that record. A device may tell what it holds or not; the clauses on counts hold in any case, and
//! those on contents where it tells. Only a device itself can raise its counts, so a fault that a program reports has
//! its cause in one of them.
//!
//! [`LineReader`] hears the lines of a source, in whatever pieces it gives: each answer is what the bytes behind those
//! heard before are heard as, by what a line is in a whole text. It can be read byte by byte too. It takes no more than a limit, and where it comes to
//! that it stops for good: what it took last, at most 4,096 bytes, isn't heard.
//!
//! The plain types of `fw_types` are handed on.
#![tactic(auto)]

mod ask;
mod clock;
mod dialed;
mod dialer;
mod dice;
mod failed;
mod files;
mod heard;
mod keep_fault;
mod keeper;
mod launcher;
mod line_reader;
mod line_text;
mod mark;
mod sink;
mod source;
mod started;

pub use ask::Ask;
pub use clock::Clock;
pub use dialed::Dialed;
pub use dialer::Dialer;
pub use dice::Dice;
pub use failed::Failed;
pub use files::Files;
pub use fw_types::{
    Dest, Ending, Host, HostName, Message, Name, NoMemory, Octets, OctetsList, Peer, Verb, VerbList,
};
pub use heard::{Heard, Stop};
pub use keep_fault::KeepFault;
pub use keeper::Keeper;
pub use launcher::Launcher;
pub use line_reader::LineReader;
pub use mark::Mark;
pub use sink::Sink;
pub use source::{Got, Source};
pub use started::Started;
