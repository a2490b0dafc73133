//! A look at sockets.

use crate::patience::millis_of;
use libc::net::{self, POLLIN};
use libc::types::pollfd;
use std::os::fd::RawFd;

/// What a look at a socket found.
#[derive(Clone, Copy)]
pub(crate) enum Look {
    /// A read of the socket has something to answer, or says why not.
    Ready,
    /// The client has gone.
    Gone,
    /// Nothing came in time.
    Nothing,
}

// Which the system passes over.
const NO_SOCKET: RawFd = -1;

fn asking(socket: Option<RawFd>, events: i16) -> pollfd {
    pollfd {
        fd: socket.unwrap_or(NO_SOCKET),
        events,
        revents: 0,
    }
}

/// Waits at most so long until the socket can be read, if there is one, or the client has gone: its socket was reset, or is
/// closed in both directions. A client who has shut its sending half alone is there. Where the system can't wait, the read
/// is left to find out.
pub(crate) fn watch(socket: Option<RawFd>, client: Option<RawFd>, nanos: u64) -> Look {
    let mut asked = [asking(socket, POLLIN), asking(client, 0)];
    let found = net::poll(&mut asked, millis_of(nanos));
    if found == 0 {
        Look::Nothing
    } else if asked[0].revents == 0 && asked[1].revents != 0 {
        Look::Gone
    } else {
        Look::Ready
    }
}
