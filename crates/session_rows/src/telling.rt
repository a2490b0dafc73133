//! What is told of a session.

use crate::devices::Devices;
use fw_memory::{MemSink, MemSource};
use fw_types::Ending;
use lines_of_rows::{Told, add, add_number, add_word};

fn ending_name(ending: Ending) -> &'static [u8] {
    match ending {
        Ending::Done => b"Done",
        Ending::Denied { .. } => b"Denied",
        Ending::ClientFault => b"ClientFault",
        Ending::ServerFault => b"ServerFault",
        Ending::LogFault => b"LogFault",
        Ending::AuthFault => b"AuthFault",
        Ending::Idle => b"Idle",
        Ending::NoRoute => b"NoRoute",
        Ending::Spent => b"Spent",
        Ending::NoMemory => b"NoMemory",
    }
}

// What the server was given whose link was hung up first.
fn passed(ended: &[(MemSource, MemSink)]) -> &[u8] {
    match ended {
        [first, ..] => first.1.bytes(),
        [] => &[],
    }
}

fn add_text(out: &mut Told, text: &[u8]) {
    add(out, b"|");
    add(out, text);
}

/// `ENDING DIALED HUNG-UP|TOLD|PASSED|LOGGED`: how the session ended, how many destinations were asked for and links hung
/// up, what the client was told, what the server was passed, and what was logged.
pub(crate) fn tell_after(devices: &Devices, ending: Ending, out: &mut Told) {
    add_word(out, ending_name(ending));
    add_number(out, devices.dialer.asked().len() as u64);
    add_number(out, devices.dialer.ended().len() as u64);
    add_text(out, devices.to.bytes());
    add_text(out, passed(devices.dialer.ended()));
    add_text(out, devices.logs.bytes());
}
