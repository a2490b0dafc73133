//! Doors, at which a client's data link is waited for.
ghost use Rattle.std.specs.Prelude.{◌≡◌, true, IfOk, IfSome};

use crate::link::Connected;
use crate::{Address, ClientHosts, DoorPorts};
use real_waits::{Activity, time_of};
use std::alloc::Global;
use std::net::{Ipv4Addr, Net, OpenListener, SocketAddr, SocketAddrV4, TcpListener};
use std::sync::Arc;
use std::time::{Clock, Duration, Instant};
use std::{io, thread};

// How many milliseconds a door rests where nobody is at it.
const REST: u64 = 5;

/// A socket that listens for one client: a connection from any other address is closed.
#[derive(Drop)]
pub struct TcpDoor<L> {
    listener: L,
    client: [u8; 4],
}

/// A door, and the port at which it listens.
#[derive(Drop)]
pub(crate) struct Opened<L> {
    pub(crate) door: TcpDoor<L>,
    pub(crate) port: u16,
}

// Opens a door for the client, at the address where it came in, and at this port, which for 0 the system picks.
fn open_door_at<R: Net>(net: &R, hosts: ClientHosts, port: u16) -> io::Result<Opened<R::Listener>>
    ensures { IfOk result (λ opened. opened.door.client ≡ hosts.there) }
{
    let at = SocketAddrV4::new(Ipv4Addr::from_octets(hosts.here), port);
    let listener = TcpListener::bind(net, SocketAddr::V4(at))?;
    listener.set_nonblocking(true)?;
    let port = listener.local_addr()?.port();
    let client = hosts.there;
    Ok(Opened {
        door: TcpDoor { listener, client },
        port,
    })
}

/// Opens a door for the client, at the address where it came in, and at the first of these ports at which that can be done.
pub(crate) fn open_door<R: Net>(
    net: &R,
    hosts: ClientHosts,
    ports: DoorPorts,
) -> Option<Opened<R::Listener>>
    ensures { IfSome result (λ opened. opened.door.client ≡ hosts.there) }
{
    for port in ports.first..=ports.last {
        if let Ok(opened) = open_door_at(net, hosts, port) {
            return Some(opened);
        }
    }
    None
}

// Who is at the listener, if somebody is. Its address is the system's word.
fn caller<L: OpenListener>(listener: &L) -> Option<Connected<L::Stream>> {
    let (socket, from) = listener.accept().ok()?;
    let SocketAddr::V4(at) = from else {
        return None;
    };
    let host = at.ip().octets();
    let to = Address {
        host,
        port: at.port(),
    };
    Some(Connected { socket, to })
}

fn is_same(one: [u8; 4], other: [u8; 4]) -> bool
    ensures { result ≡ true → one ≡ other }
{
    one == other
}

// The caller, if it is this client.
fn admit<S: Drop>(caller: Connected<S>, client: [u8; 4]) -> Option<Connected<S>>
    ensures { IfSome result (λ connected. connected.to.host ≡ client) }
{
    if is_same(caller.to.host, client) {
        Some(caller)
    } else {
        None
    }
}

// Whether so much time went by since then. A clock that can't be read is as one that says so.
fn is_over<R: Clock>(clock: &R, since: Instant, most: Duration) -> bool {
    match since.elapsed(clock) {
        Ok(elapsed) => elapsed >= most,
        Err(_) => true,
    }
}

fn is_client_gone(activity: &Option<Arc<Activity, Global>>) -> bool {
    match activity {
        Some(activity) => activity.is_client_gone(),
        None => false,
    }
}

/// Waits at the door for its client, so many seconds at most, and no longer where the client of the session has gone. Others
/// are turned away.
pub(crate) fn wait_at<R: Net + Clock>(
    net: &R,
    door: &TcpDoor<R::Listener>,
    seconds: u32,
    activity: &Option<Arc<Activity, Global>>,
) -> Option<Connected<R::Stream>>
    ensures { IfSome result (λ connected. connected.to.host ≡ door.now.client) }
{
    let since = Instant::now(net).ok()?;
    for _ in 0..u64::MAX {
        match caller(&door.listener) {
            Some(caller) => {
                if let Some(client) = admit(caller, door.client) {
                    return Some(client);
                }
            }
            None => thread::sleep(net, Duration::from_millis(REST)),
        }
        if is_over(net, since, time_of(seconds)) || is_client_gone(activity) {
            return None;
        }
    }
    None
}
