//! How long a socket waits.
ghost use Rattle.std.specs.Prelude.{◌≡◌, min};

use real_waits::time_of;
use std::io;
use std::net::OpenStream;

// How many seconds a link may take to come up at most.
const COMING: u32 = 60;

/// How many seconds a link may take to come up that waits so many: as many, and 60 at most.
pub(crate) fn coming(seconds: u32) -> u32
    ensures { result ≡ min seconds 60 }
{
    seconds.min(COMING)
}

/// Sets how many seconds a read and a write of the socket wait at most. All its handles wait so.
pub(crate) fn set_wait<S: OpenStream>(socket: &S, seconds: u32) -> io::Result<()> {
    let time = Some(time_of(seconds));
    socket.set_read_timeout(time)?;
    socket.set_write_timeout(time)
}
