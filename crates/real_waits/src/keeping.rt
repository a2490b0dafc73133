//! Probes of a client who says nothing.

use libc::net::{
    self, IPPROTO_TCP, SO_KEEPALIVE, SOL_SOCKET, TCP_KEEPCNT, TCP_KEEPIDLE, TCP_KEEPINTVL,
};
use std::os::fd::RawFd;

// How many seconds a client is silent before the first probe.
const FIRST: u32 = 10;

// How many seconds lie between two.
const NEXT: u32 = 30;

// How many may stay without an answer: those of an hour.
const UNANSWERED: u32 = 127;

// The value of an option, in its first four bytes.
fn value(number: u32) -> [u8; 16] {
    let mut value = [0; 16];
    value[..4].copy_from_slice(&number.to_ne_bytes());
    value
}

/// Has the system probe the other end of a socket that is silent. A host answers a probe for a socket which is open there,
/// also if it is shut in one direction, and resets one which is not. A refusal changes nothing but that.
pub(crate) fn probe(socket: RawFd) {
    let first = value(FIRST);
    let next = value(NEXT);
    let unanswered = value(UNANSWERED);
    let on = value(1);
    unsafe {
        net::setsockopt(socket, IPPROTO_TCP, TCP_KEEPIDLE, &first, 4);
        net::setsockopt(socket, IPPROTO_TCP, TCP_KEEPINTVL, &next, 4);
        net::setsockopt(socket, IPPROTO_TCP, TCP_KEEPCNT, &unanswered, 4);
        net::setsockopt(socket, SOL_SOCKET, SO_KEEPALIVE, &on, 4);
    }
}
