//! A listener that several doors share.
ghost use Rattle.std.specs.Prelude.{◌≡◌, IfOk};

use std::io;
use std::net::{Ipv4Addr, Shutdown, SocketAddr, SocketAddrV4, TcpListener, TcpStream};
use std::os::fd::AsFd;
use std::sync::atomic::{AtomicBool, Ordering};

/// A listener at a port of this host, and whether it is closed. The handle is of the same socket.
#[derive(Drop)]
pub(crate) struct Entrance {
    port: u16,
    listener: TcpListener,
    handle: TcpStream,
    is_closed: AtomicBool,
}

// A listener at this address of the host, or with zeros at all. That it listens there and at this port is the system's word.
fn listen(system: &HostRuntime, host: [u8; 4], port: u16) -> io::Result<TcpListener> {
    let at = SocketAddrV4::new(Ipv4Addr::from_octets(host), port);
    TcpListener::bind(system, SocketAddr::V4(at))
}

impl Entrance {
    /// An open entrance at this port of this address, or with zeros of all addresses.
    pub(crate) fn open(system: &HostRuntime, host: [u8; 4], port: u16) -> io::Result<Entrance>
        ensures { IfOk result (λ entrance. entrance.port ≡ port) }
    {
        let listener = listen(system, host, port)?;
        let handle = TcpStream::from(listener.as_fd().try_clone_to_owned()?);
        Ok(Entrance {
            port,
            listener,
            handle,
            is_closed: AtomicBool::new(false),
        })
    }

    /// The port at which it listens.
    pub(crate) fn port(&self) -> u16
        ensures { result ≡ self.now.port }
    {
        self.port
    }

    /// Closes it. Whoever waits at it waits no longer, and who comes later is refused by the system.
    pub(crate) fn close(&self) {
        self.is_closed.store(true, Ordering::SeqCst);
        let _ = self.handle.shutdown(Shutdown::Both);
    }

    pub(crate) fn is_closed(&self) -> bool {
        self.is_closed.load(Ordering::SeqCst)
    }

    /// Waits for the next who comes.
    pub(crate) fn accept(&self) -> io::Result<(TcpStream, SocketAddr)> {
        self.listener.accept()
    }
}
