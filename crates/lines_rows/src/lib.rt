//! Rows of lines and of bytes that are read and written: those of FTP, Telnet and mail, and those of records, one-time passwords and
//! `authsrv`. Each row of a file says what is told of what is asked, by the kinds that its module knows. `lines_of_rows` says how a
//! row is written.
#![tactic(auto)]

pub mod lines;
pub mod records;
