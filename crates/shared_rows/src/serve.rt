//! A server over clients in memory: a client whose service has no rules; two, each of whom goes once both were greeted; a user who
//! is attacked while he logs in; one password that eight say at once; and two who hand in a message each.

mod devices;
mod door;
mod parts;
mod records;
mod scenes;
mod spool;
mod telling;

use lines_of_rows::{Told, add, add_word};
use scenes::{tell_attack, tell_one_word, tell_side_by_side, tell_two_letters, tell_without_rules};
use std::alloc::Global;
use std::sync::Wait;
use std::thread::Threads;
use std::{io, str};

fn tell<H: Threads + Wait + Sync>(rt: &H, alloc: Global, out: &mut Told) {
    add_word(out, b"without rules:");
    tell_without_rules(rt, alloc, out);
    add(out, b"\nside by side:");
    tell_side_by_side(rt, alloc, out);
    add(out, b"\na user who is attacked:");
    tell_attack(rt, alloc, out);
    add(out, b"\none word, said eight times:");
    tell_one_word(rt, alloc, out);
    add(out, b"\ntwo messages:");
    tell_two_letters(rt, alloc, out);
}

/// Prints what comes of the servers.
///
/// # Errors
///
/// What standard output answers.
pub fn print_all<H: Threads + Wait + Sync>(threads: &H, rt: HostRuntime) -> io::Result<()> {
    let mut out = Told::new();
    tell(threads, rt.alloc(), &mut out);
    match str::from_utf8(out.as_slice()) {
        Ok(text) => println!(rt; "{text}"),
        Err(_) => println!(rt; "no text"),
    }
}
