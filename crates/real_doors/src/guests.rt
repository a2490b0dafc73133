//! Clients with the devices of their sessions.
ghost use Rattle.std.specs.Prelude.{◌≡◌, IfSome, Some};
ghost use Rattle.acceptors.specs.AcceptorView.{HasSessions};
ghost use Rattle.real_doors.specs.Guests.{Greets, visit_of};
ghost use Rattle.real_doors.specs.HostNames.{name_in};

use crate::HostNames;
use acceptors::Caller;
use fw_real::{Reading, Salts, StandardInput, SystemClock, Writing};
use fw_types::Peer;
use gate_rules::Service;
use real_links::{DoorPorts, LinkSink, StandardOutput, TcpDialer};
use real_waits::Activity;
use std::alloc::Global;
use std::io::{self, Stderr};
use std::net::{SocketAddr, TcpStream};
use std::sync::Arc;
use std::time::Duration;

/// A client over TCP. Its socket is read and written as one that inetd hands over.
pub type TcpCaller = Caller<
    Reading<StandardInput>,
    LinkSink<StandardOutput>,
    Writing<Stderr>,
    TcpDialer<HostRuntime>,
    SystemClock<HostRuntime>,
    Salts,
>;

// How many seconds a client's socket waits at first.
const PATIENCE: u64 = 3600;

/// A client's socket, and the client's address.
#[derive(Drop)]
pub(crate) struct Arrival {
    pub(crate) socket: TcpStream,
    pub(crate) host: [u8; 4],
}

/// Who came, if it is from an address of IPv4. That the address is the client's is the system's word.
pub(crate) fn arrived(socket: TcpStream, from: SocketAddr) -> Option<Arrival> {
    match from {
        SocketAddr::V4(at) => Some(Arrival {
            socket,
            host: at.ip().octets(),
        }),
        SocketAddr::V6(_) => None,
    }
}

// The client at this address, with its name where that is known.
fn peer(names: &HostNames, host: [u8; 4]) -> Peer
    ensures { result ≡ record { addr = Some host; name = name_in host names.now } }
{
    Peer {
        addr: Some(host),
        name: names.name_of(host),
    }
}

// The two ends of a client's socket, each with a handle of its own, and the activity of their session.
#[derive(Drop)]
struct Ends {
    from: StandardInput,
    to: StandardOutput,
    activity: Arc<Activity, Global>,
}

// A read and a write wait an hour at most.
fn both_ends(rt: HostRuntime, socket: TcpStream) -> io::Result<Ends> {
    let patience = Some(Duration::from_secs(PATIENCE));
    socket.set_read_timeout(patience)?;
    socket.set_write_timeout(patience)?;
    let to = StandardOutput::Socket(socket.try_clone()?);
    let activity = to.activity(rt)?;
    let from = StandardInput::over(Some(Arc::try_clone(&activity)?), socket);
    Ok(Ends { from, to, activity })
}

// The service, unless it is the access wrapper.
fn with_sessions(service: &Service) -> Option<Service>
    ensures sessions { IfSome result HasSessions }
    ensures same { IfSome result (λ found. found ≡ service.now) }
{
    match service {
        Service::Netacl(_) => None,
        Service::TnGw => Some(Service::TnGw),
        Service::FtpGw => Some(Service::FtpGw),
        Service::PlugGw(port) => Some(Service::PlugGw(*port)),
        Service::Smap => Some(Service::Smap),
        Service::Authsrv => Some(Service::Authsrv),
    }
}

/// The client who came, with new devices, of which the doors are at these ports; or nothing where the system refuses one, or the service has no sessions.
pub(crate) fn caller(
    rt: HostRuntime,
    service: &Service,
    names: &HostNames,
    ports: DoorPorts,
    arrival: Arrival,
) -> Option<TcpCaller>
    ensures { IfSome result (λ caller. Greets service.now names.now (visit_of caller)) }
{
    let Arrival { socket, host } = arrival;
    let service = with_sessions(service)?;
    let dice = Salts::new(&rt).ok()?;
    let Ends { from, to, activity } = both_ends(rt, socket).ok()?;
    let hosts = to.hosts();
    let noted = Arc::try_clone(&activity).ok()?;
    let dialer = TcpDialer::new(rt, rt.alloc(), hosts).with_doors_at(ports);
    Some(Caller {
        service,
        peer: peer(names, host),
        from: Reading::new(from),
        to: LinkSink::within(Some(noted), to),
        logs: Writing::new(rt.stderr()),
        dialer: dialer.within(Some(activity)),
        clock: SystemClock::new(rt),
        dice,
    })
}
