use crate::ClientHosts;
use real_waits::Activity;
use std::alloc::Global;
use std::io::{self, Stdout, Write};
use std::net::{Ipv4Addr, OpenStream, Shutdown, SocketAddr, TcpStream};
use std::os::fd::AsFd;
use std::sync::Arc;

/// What a process writes as its standard output. If it is a socket, as inetd and systemd hand one over, the other side can
/// be told that no more comes; over anything else nothing is told.
#[derive(Drop)]
pub enum StandardOutput {
    Socket(TcpStream),
    Other(Stdout),
}

// The socket that standard output is.
fn socket_of(stdout: &Stdout) -> io::Result<TcpStream> {
    let socket = TcpStream::from(stdout.as_fd().try_clone_to_owned()?);
    socket.write_timeout()?;
    socket.set_nonblocking(false)?;
    Ok(socket)
}

// The IPv4 address of one end, which one of IPv6 may stand for.
fn host_of(end: SocketAddr) -> Option<Ipv4Addr> {
    match end {
        SocketAddr::V4(at) => Some(*at.ip()),
        SocketAddr::V6(at) => at.ip().to_ipv4_mapped(),
    }
}

// The addresses of both ends of a client's socket.
fn hosts_of(socket: &TcpStream) -> Option<ClientHosts> {
    let here = host_of(socket.local_addr().ok()?)?.octets();
    let there = host_of(socket.peer_addr().ok()?)?.octets();
    Some(ClientHosts { here, there })
}

impl StandardOutput {
    /// The standard output of this process.
    pub fn of(stdout: Stdout) -> StandardOutput {
        match socket_of(&stdout) {
            Ok(socket) => StandardOutput::Socket(socket),
            Err(_) => StandardOutput::Other(stdout),
        }
    }

    /// The addresses of both ends of a client's socket; nothing if standard output is no socket of IPv4.
    pub fn hosts(&self) -> Option<ClientHosts> {
        match self {
            StandardOutput::Socket(socket) => hosts_of(socket),
            StandardOutput::Other(_) => None,
        }
    }

    // Another handle of the client's socket.
    fn handle(&self) -> io::Result<Option<TcpStream>> {
        match self {
            StandardOutput::Socket(socket) => Ok(Some(socket.try_clone()?)),
            StandardOutput::Other(_) => Ok(None),
        }
    }

    /// The activity of a session with this client, which begins now.
    pub fn activity(&self, system: HostRuntime) -> io::Result<Arc<Activity, Global>> {
        let activity = Activity::new(system, self.handle()?)?;
        Ok(Arc::new(system.alloc(), activity)?)
    }
}

impl Write for StandardOutput {
    fn write(&mut self, buf: &[u8]) -> io::Result<usize> {
        match self {
            StandardOutput::Socket(socket) => socket.write(buf),
            StandardOutput::Other(stdout) => stdout.write(buf),
        }
    }

    fn flush(&mut self) -> io::Result<()> {
        match self {
            StandardOutput::Socket(socket) => socket.flush(),
            StandardOutput::Other(stdout) => stdout.flush(),
        }
    }
}

impl OpenStream for StandardOutput {
    fn shutdown(&self, how: Shutdown) -> io::Result<()> {
        match self {
            StandardOutput::Socket(socket) => socket.shutdown(how),
            StandardOutput::Other(_) => Ok(()),
        }
    }

    fn set_nodelay(&self, nodelay: bool) -> io::Result<()> {
        match self {
            StandardOutput::Socket(socket) => socket.set_nodelay(nodelay),
            StandardOutput::Other(_) => Ok(()),
        }
    }
}
