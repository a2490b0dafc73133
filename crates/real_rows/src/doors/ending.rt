//! How doors end.

use crate::doors::opening::{doors_at, free_doors};
use acceptors::{Acceptor, Knock};
use real_doors::{Closer, Doors, TcpAcceptor};
use std::io;
use std::net::TcpStream;
use std::thread::{self, Threads, join};
use std::time::Duration;

fn word(mut door: TcpAcceptor) -> &'static str {
    match door.next() {
        Knock::Session(caller) => {
            door.back(caller);
            "client"
        }
        Knock::End => "end",
        Knock::Failed => "failed",
    }
}

// Ends the doors after a while.
fn end(rt: HostRuntime, closer: Closer) {
    thread::sleep(&rt, Duration::from_millis(200));
    closer.close_after(b"no end yet".as_slice());
}

// What two doors answer that wait side by side.
fn words<H: Threads + Sync>(
    threads: &H,
    first: TcpAcceptor,
    second: TcpAcceptor,
) -> (&'static str, &'static str) {
    join(threads, move || word(first), move || word(second))
}

// What they answer when they are ended meanwhile.
fn words_at_end<H: Threads + Sync>(
    threads: &H,
    rt: HostRuntime,
    first: TcpAcceptor,
    second: TcpAcceptor,
    closer: Closer,
) -> (&'static str, &'static str) {
    let (words, ()) = join(
        threads,
        move || words(threads, first, second),
        move || end(rt, closer),
    );
    words
}

/// Doors that wait are ended, and the system refuses later clients. A port that is taken fails.
pub(crate) fn tell<H: Threads + Sync>(threads: &H, rt: HostRuntime) -> io::Result<()> {
    let (made, port) = free_doors(rt)?;
    for door in doors_at(rt, port)?.doors {
        let is_open = door.is_open();
        let word = word(door);
        println!(rt; "taken {is_open} {word}")?;
    }
    let Doors { mut doors, closer } = made;
    if let (Some(second), Some(first)) = (doors.pop(), doors.pop()) {
        let (first, second) = words_at_end(threads, rt, first, second, closer);
        println!(rt; "{first} {second}")?;
    }
    match TcpStream::connect(&rt, ("127.0.0.1", port)) {
        Ok(_) => println!(rt; "let in"),
        Err(_) => println!(rt; "refused"),
    }
}
