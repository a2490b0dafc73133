//! The top calls of the firewall's program, over devices that are handed in: a permission table says what whoever comes
//! from outside may do, and the first of its lines that matches decides.
//!
//! [`run`] is the call that the program makes: over the files with the table, standard input and output, the log, the
//! clock, the dice and the keeper of the users' records. Its contract says, for every command line, every table and
//! every way in which a device may fail, which status it answers and what it leaves: wherever `netacl` has printed
//! anything, the line of its verdict stands whole in the log; what is printed and logged is told byte for byte, where
//! the devices tell it; the replies that a client of `authsrv`, `tn-gw` or `ftp-gw` is told are those of a legal
//! history, or those that the lines of a server elsewhere say, where it knows the users; the destinations that `plug-gw`, `tn-gw` and `ftp-gw` ask for are those that the table permits, and no other
//! command asks for one; a server of `ftp-gw` is given what its client's commands are passed as, without those that are denied;
//! each message that `smap` tells its client to be kept stands whole in the slot of the number that it tells;
//! and each status but 5, want of memory, has its cause: in the words, in a limit, in the count of a device that rose, in
//! something strange that a server elsewhere answered, or, where the devices tell what they hold, in the table's text, the records and the slots. All that is said of what was
//! read is said of one table and of one list of records. [`conn`] serves one client.
//!
//! A server takes the steps before its sessions one by one: [`after_options`], [`any_twice`], [`word_or`] and [`places_in`]
//! of its words, then [`read_table`], [`read_rules`], [`read_policy`], [`open_book`] and [`open_rack`], and [`tell`].
#![tactic(auto)]

mod authsrv;
mod book;
mod calculating;
mod deciding;
mod dest_word;
mod gateways;
mod handing_on;
mod jobs;
mod kit;
mod mailing;
mod obeying;
mod otp_texts;
mod outcome;
mod place_names;
mod plug;
mod reading;
mod running;
mod server_rules;
mod spelling;
mod starting;
mod table_report;
mod texts;
mod words;

pub use book::open_book;
pub use client_service::{LogLine, conn, decision_line, denied_line, ending_line};
pub use drill_lines::Drill;
pub use fw_mail::Mailer;
pub use kit::{Kit, World};
pub use mailing::open_rack;
pub use obeying::tell;
pub use outcome::{Device, OtpRefusal, Outcome, Refusal, Step, ending_status};
pub use place_names::Places;
pub use reading::{read_policy, read_rules, read_table};
pub use running::run;
pub use server_rules::ServerRules;
pub use spelling::{FileName, Spelling};
pub use words::{
    Authorities, Caller, Client, Command, CommandLine, GatewayKind, Job, Order, Query,
    after_options, any_twice, places, places_in, read_order, table_named, word_or,
};
