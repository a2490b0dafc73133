//! Why nobody came in.

use std::io;

// A descriptor that isn't open.
const BAD_DESCRIPTOR: i32 = 9;

// An argument that the system doesn't take, as a socket that doesn't listen any more.
const INVALID: i32 = 22;

// A descriptor of no socket.
const NO_SOCKET: i32 = 88;

// A socket that can't listen.
const UNSUPPORTED: i32 = 95;

/// Whether a listener that failed so will fail again. Other faults pass: a client who is gone, a signal, and want of
/// descriptors or memory, among them.
pub(crate) fn is_lasting(fault: &io::Error) -> bool {
    match fault.raw_os_error() {
        Some(number) => {
            number == BAD_DESCRIPTOR
                || number == INVALID
                || number == NO_SOCKET
                || number == UNSUPPORTED
        }
        None => false,
    }
}
