//! The devices of a process: what it reads and writes, files by their paths, the time, random bytes, and records in a
//! file.
//!
//! Each is one of the devices of `fw_outside` over the real thing. None tells what it holds, since no contract can say
//! what the system gives or takes; each that can fail counts its failures in a count of 64 bits that stands still at
//! its last value; a clock that can't be read says 0, and counts nothing. So what the contracts promise is that a call
//! that was refused is answered as refused and counted, that no other call is counted, and that each call is handed on:
//! [`Reading`] and [`Writing`] give on exactly the bytes that their reader and their writer say they have moved, and
//! [`Records`] runs exactly the statements of its texts, with the name and the bytes as their parameters, answers as
//! they answered, and loads what the query showed, row by row, in the order of the names.
#![tactic(auto)]

mod clock;
mod database;
mod dice;
mod entries;
mod file_disk;
mod keeper;
mod paths;
mod private;
mod raw_file;
mod reading;
mod slot_file;
mod standard_input;
mod statements;
mod through;
mod timed;
mod writing;

pub use clock::SystemClock;
pub use dice::Salts;
pub use file_disk::{FileDisk, Place};
pub use keeper::Records;
pub use paths::Paths;
pub use raw_file::RawFile;
pub use reading::Reading;
pub use slot_file::SlotFile;
pub use standard_input::{ClientSocket, StandardInput};
pub use timed::Timed;
pub use writing::Writing;
