//! The link to the server that knows the users, where that is one elsewhere.
ghost use Rattle.std.specs.Prelude.{◌≡◌, true, IsSome};
ghost use Rattle.bastion.specs.Status.{is_remote_line};
ghost use Rattle.bastion.specs.Words.{is_remote, line_of};

use crate::process::{AuthSink, AuthSource};
use bastion::CommandLine;
use fw_outside::Dialer;
use fw_types::{Dest, Octets};
use real_links::{RemoteSink, RemoteSource, TcpDialer};

// How many seconds the link may take to come up, and each wait for bytes of the server.
const WAITS: u32 = 60;

// The ends of a link to this server, which waits whatever moves in the session. Where there is none, each call of them fails.
fn ends_to(rt: HostRuntime, server: &Option<Dest>) -> (AuthSource, AuthSink) {
    let Some(dest) = server else {
        return (
            RemoteSource::Down {
                faults: 0,
                waits: WAITS,
            },
            RemoteSink::Down { faults: 0 },
        );
    };
    let mut dialer = TcpDialer::new(rt, rt.alloc(), None);
    dialer.patience(WAITS);
    dialer.reach_server(dest)
}

// The same, for a gateway whose users a server elsewhere knows.
fn ends_for(rt: HostRuntime, line: &CommandLine) -> Option<(AuthSource, AuthSink)>
    ensures { is_remote line.now.order ≡ true → IsSome result }
{
    if line.order.is_remote() {
        return Some(ends_to(rt, &line.places.remote));
    }
    None
}

/// The ends of a link to the server that the words name, if they are those of a gateway that is to ask it. Where the server
/// can't be reached, each call of them fails.
pub fn remote_for(rt: HostRuntime, words: &[Octets]) -> Option<(AuthSource, AuthSink)>
    ensures { is_remote_line (line_of words.now) ≡ true → IsSome result }
{
    match CommandLine::read(words) {
        Some(line) => ends_for(rt, &line),
        None => None,
    }
}
