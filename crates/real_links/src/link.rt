ghost use Rattle.std.specs.Prelude.{◌≡◌, IfOk};
ghost use Rattle.real_links.specs.NewLinks.{IsNewLink};

use crate::wait::{coming, set_wait};
use crate::{Address, LinkSink, LinkSource};
use real_waits::{Activity, shared, time_of};
use std::alloc::Global;
use std::io::{self, BufReader, Read, Write};
use std::net::{Ipv4Addr, Net, OpenStream, SocketAddr, SocketAddrV4, TcpStream};
use std::sync::Arc;

// How many bytes a link reads ahead at most.
const AHEAD: usize = 65536;

/// The two ends of a link.
#[derive(Drop)]
pub(crate) struct Link<S> {
    pub(crate) from: LinkSource<S>,
    pub(crate) to: LinkSink<S>,
}

/// A socket that was connected, and to where.
#[derive(Drop)]
pub(crate) struct Connected<S> {
    pub(crate) socket: S,
    pub(crate) to: Address,
}

// Connects to an address of IPv4, within so many seconds. That this leads to the host there is the system's word.
fn connect<R: Net>(net: &R, to: Address, seconds: u32) -> io::Result<Connected<R::Stream>>
    ensures { IfOk result (λ connected. connected.to ≡ to) }
{
    let at = SocketAddrV4::new(Ipv4Addr::from_octets(to.host), to.port);
    let socket = TcpStream::connect_timeout(net, &SocketAddr::V4(at), time_of(seconds))?;
    Ok(Connected { socket, to })
}

/// The two ends of a link over the socket, each with a handle of its own, which wait so many seconds, in a session of this
/// activity.
pub(crate) fn link_over<S: Read + Write + OpenStream + Drop>(
    alloc: Global,
    connected: Connected<S>,
    seconds: u32,
    activity: &Option<Arc<Activity, Global>>,
) -> io::Result<Link<S>>
    ensures to { IfOk result (λ link. link.from.to ≡ connected.to) }
    ensures new { IfOk result (IsNewLink seconds) }
{
    let Connected { socket, to } = connected;
    set_wait(&socket, seconds)?;
    let other = socket.try_clone()?;
    let socket = BufReader::with_capacity(alloc, AHEAD, socket)?;
    Ok(Link {
        from: LinkSource::new(socket, to, seconds, shared(activity)),
        to: LinkSink::within(shared(activity), other),
    })
}

/// A link to this address, which waits so many seconds. It may take as long to come up, and 60 seconds at most.
pub(crate) fn open<R: Net>(
    net: &R,
    alloc: Global,
    to: Address,
    seconds: u32,
    activity: &Option<Arc<Activity, Global>>,
) -> io::Result<Link<R::Stream>>
    ensures to { IfOk result (λ link. link.from.to ≡ to) }
    ensures new { IfOk result (IsNewLink seconds) }
{
    let connected = connect(net, to, coming(seconds))?;
    link_over(alloc, connected, seconds, activity)
}
