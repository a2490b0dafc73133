//! Rows of slots on disks in memory, and of what takes them from a rack: sessions of mail, and rounds of handing on. Each row of a file
//! says what is told of what is asked, by the kinds that its module knows. `lines_of_rows` says how a row is written.
#![tactic(auto)]

pub mod round;
pub mod smap;
pub mod spool;
