use crate::Timed;
use real_waits::{Activity, Waited, time_of};
use std::alloc::Global;
use std::io::{self, ErrorKind, Read, Stdin};
use std::net::TcpStream;
use std::os::fd::{AsFd, AsRawFd};
use std::sync::Arc;
use std::sync::atomic::{AtomicU32, Ordering};

/// A client's socket, which is read, in a session of this activity, if it is one of a session.
#[derive(Drop)]
pub struct ClientSocket {
    socket: TcpStream,
    seconds: AtomicU32,
    activity: Option<Arc<Activity, Global>>,
}

/// What a process reads as its standard input. A socket, as inetd and systemd hand one over, is read as one, so that a
/// read waits no longer than it was told, or than nothing moved in all the session. A read of anything else waits as long as
/// it likes.
#[derive(Drop)]
pub enum StandardInput {
    Socket(ClientSocket),
    Other(Stdin),
}

// The socket that standard input is, which waits for bytes.
fn socket_of(stdin: &Stdin) -> io::Result<TcpStream> {
    let socket = TcpStream::from(stdin.as_fd().try_clone_to_owned()?);
    socket.read_timeout()?;
    socket.set_nonblocking(false)?;
    Ok(socket)
}

// How many seconds a client's socket waits at first.
const PATIENCE: u32 = 3600;

impl ClientSocket {
    fn new(socket: TcpStream, activity: Option<Arc<Activity, Global>>) -> ClientSocket {
        ClientSocket {
            socket,
            seconds: AtomicU32::new(PATIENCE),
            activity,
        }
    }

    // Waits until a read has something to answer. The client's end is something, too.
    fn wait(&self) -> Waited {
        match &self.activity {
            Some(activity) => {
                let seconds = self.seconds.load(Ordering::Relaxed);
                activity.wait_for_client(self.socket.as_raw_fd(), seconds)
            }
            None => Waited::Ready,
        }
    }

    // Notes that so many bytes came.
    fn note(&self, count: usize) {
        if let Some(activity) = &self.activity
            && count > 0
        {
            activity.note();
        }
    }

    // A write to the same socket waits as long, for a reader who doesn't read.
    fn set_wait(&self, seconds: u32) -> io::Result<()> {
        let time = time_of(seconds);
        self.seconds.store(seconds, Ordering::Relaxed);
        self.socket.set_read_timeout(Some(time))?;
        self.socket.set_write_timeout(Some(time))
    }
}

impl Read for ClientSocket {
    fn read(&mut self, buf: &mut [u8]) -> io::Result<usize> {
        if self.wait() == Waited::Late {
            return Err(io::Error::from(ErrorKind::WouldBlock));
        }
        let count = self.socket.read(buf)?;
        self.note(count);
        Ok(count)
    }
}

impl StandardInput {
    /// The standard input of this process.
    pub fn of(stdin: Stdin) -> StandardInput {
        StandardInput::within(None, stdin)
    }

    /// The standard input of this process, in a session of this activity.
    pub fn within(activity: Option<Arc<Activity, Global>>, stdin: Stdin) -> StandardInput {
        match socket_of(&stdin) {
            Ok(socket) => StandardInput::Socket(ClientSocket::new(socket, activity)),
            Err(_) => StandardInput::Other(stdin),
        }
    }

    /// A client's socket, in a session of this activity.
    pub fn over(activity: Option<Arc<Activity, Global>>, socket: TcpStream) -> StandardInput {
        StandardInput::Socket(ClientSocket::new(socket, activity))
    }
}

impl Read for StandardInput {
    fn read(&mut self, buf: &mut [u8]) -> io::Result<usize> {
        match self {
            StandardInput::Socket(client) => client.read(buf),
            StandardInput::Other(stdin) => stdin.read(buf),
        }
    }
}

impl Timed for StandardInput {
    /// A write to the same socket waits as long, for a reader who doesn't read.
    fn set_wait(&self, seconds: u32) -> io::Result<()> {
        match self {
            StandardInput::Socket(client) => client.set_wait(seconds),
            StandardInput::Other(_) => Ok(()),
        }
    }

    fn is_late(&self, fault: &io::Error) -> bool {
        match self {
            StandardInput::Socket(_) => fault.kind() == ErrorKind::WouldBlock,
            StandardInput::Other(_) => false,
        }
    }
}
