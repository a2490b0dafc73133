//! What a client of Telnet says, line by line (RFC 854; subnegotiations: RFC 855, its closing note on them).
//!
//! A text is read as items: bytes below 255, a doubled 255, which is the data byte 255, commands, negotiations of an
//! option and subnegotiations. All but the first two give no data. The data are cut at LF, CR LF and CR NUL; a CR
//! before anything else is dropped, and a rest without an end is no line.
//!
//! [`Telnet::feed`] takes a text byte by byte. Its contract speaks of whole texts, however they go on: the lines of
//! what was still to be heard, the byte and the rest are what the step tells, and then the lines of what is still to be
//! heard and the rest. So the steps over a text tell its lines, each with the byte that ends it. Behind that byte
//! nothing is still to be heard, so a gateway may relay what follows a line as it came. Nothing takes memory. `laws`
//! says what the definitions come to, and where the first line of a text ends.
#![tactic(auto)]

mod cutter;
pub mod laws;
mod place;
mod reader;
mod step;

pub use reader::Telnet;
pub use step::TelnetStep;
