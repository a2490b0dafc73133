//! Rows of links over loopback sockets and of programs of the system: each row of a file says what is told of what is
//! asked. `lines_of_rows` says how a row is written.
//!
//! Behind the word `-relay` stand two ports of 127.0.0.1 and a number of seconds: a link is made to each, bytes are relayed
//! between them both ways, and how each way ended is printed. Behind `-door` stand a client's address and a number of seconds:
//! a door of 127.0.0.1 is opened for that client, its port is printed, and then who came up.

mod doors;
mod kinds;
mod launching;
mod linking;
mod mailing;
mod relaying;

use doors::wait_at_door;
use kinds::Kinds;
use lines_of_rows::compare;
use relaying::relay;
use std::io;
use std::thread::Threads;

// Does what `-relay ..` or `-door ..` asks for: whether the words are one of these.
fn link_by_words<H: Threads + Sync>(
    threads: &H,
    rt: HostRuntime,
    words: &[String],
) -> io::Result<bool> {
    match words {
        [word, up, down, seconds] if word.as_str() == "-relay" => {
            let (up, down) = relay(threads, rt, (up.as_str(), down.as_str()), seconds.as_str())?;
            println!(&rt; "{up} {down}")?;
            Ok(true)
        }
        [word, client, seconds] if word.as_str() == "-door" => {
            let came = wait_at_door(rt, client.as_str(), seconds.as_str())?;
            println!(&rt; "{came}")?;
            Ok(true)
        }
        _ => Ok(false),
    }
}

/// Compares the rows of the files of these names, prints what comes of it, and tells whether all is as it is to be. For `-relay PORT
/// PORT SECONDS` it relays between two ports, and for `-door ADDRESS SECONDS` it waits at a door, and prints what comes of it.
///
/// # Errors
///
/// What a link or standard output answers.
pub(crate) fn try_rows<H: Threads + Sync>(
    threads: &H,
    rt: HostRuntime,
    words: &[String],
) -> io::Result<bool> {
    if link_by_words(threads, rt, words)? {
        return Ok(true);
    }
    compare(rt, &mut Kinds { rt }, words)
}
