//! A book of `auth_machine` that passes of one lock share: what each is answered, and which entries are whose.

mod asking;
mod enrolling;
mod jobs;
mod logins;
mod meeting;
mod opening;
mod passes;
mod sharing;
mod telling;
mod threads;
mod users;
mod visits;

use lines_of_rows::{Told, add, add_word};
use logins::{tell_attack, tell_word};
use meeting::tell_meeting;
use std::alloc::Global;
use std::sync::Wait;
use std::thread::Threads;
use std::{io, str};
use users::tell_user;
use visits::tell_visits;

fn tell<H: Threads + Wait + Sync>(rt: &H, alloc: Global, out: &mut Told) {
    add_word(out, b"two passes:");
    tell_meeting(rt, alloc, 100, out);
    add(out, b"\nwhere two fit:");
    tell_meeting(rt, alloc, 2, out);
    add(out, b"\na user:");
    tell_user(rt, alloc, out);
    add(out, b"\nfour threads:");
    tell_visits(rt, alloc, out);
    add(out, b"\na user who is attacked:");
    tell_attack(rt, alloc, out);
    add(out, b"\none word, said four times:");
    tell_word(rt, alloc, out);
}

/// Prints what comes of the requests.
///
/// # Errors
///
/// What standard output answers.
pub fn print_all<H: Threads + Wait + Sync>(threads: &H, rt: HostRuntime) -> io::Result<()> {
    let mut out = Told::new();
    tell(threads, rt.alloc(), &mut out);
    match str::from_utf8(out.as_slice()) {
        Ok(text) => println!(rt; "{text}"),
        Err(_) => println!(rt; "no text"),
    }
}
