use crate::keeping::probe;
use crate::looking::{Look, watch};
use crate::patience::{nanos_of, time_of};
use std::alloc::Global;
use std::io;
use std::net::TcpStream;
use std::os::fd::{AsRawFd, RawFd};
use std::sync::Arc;
use std::sync::atomic::{AtomicU64, Ordering};
use std::time::{Clock, Instant};

/// What the sources and the sinks of a session share: when a byte last came or went, and the client's socket, if its client
/// has one.
#[derive(Drop)]
pub struct Activity {
    system: HostRuntime,
    began: Instant,
    moved: AtomicU64,
    client: Option<TcpStream>,
}

/// How a wait ended.
#[derive(Clone, Copy, Debug, PartialEq, Eq)]
pub enum Waited {
    /// A read has something to answer.
    Ready,
    /// In all the session nothing moved for as long as was to be waited, and that was waited, too.
    Late,
    /// The client has gone.
    Gone,
}

/// One more owner of the activity, if there is one; none where no more can be.
pub fn shared(activity: &Option<Arc<Activity, Global>>) -> Option<Arc<Activity, Global>> {
    match activity {
        Some(activity) => Arc::try_clone(activity).ok(),
        None => None,
    }
}

impl Activity {
    /// That of a session which begins now, with this handle of its client's socket.
    pub fn new(system: HostRuntime, client: Option<TcpStream>) -> io::Result<Activity> {
        Ok(Activity {
            system,
            began: Instant::now(&system)?,
            moved: AtomicU64::new(0),
            client,
        })
    }

    // How many nanoseconds the session takes by now.
    fn now(&self) -> io::Result<u64> {
        Ok(nanos_of(self.began.elapsed(&self.system)?))
    }

    /// Notes that a byte came or went.
    pub fn note(&self) {
        if let Ok(now) = self.now() {
            self.moved.store(now, Ordering::Relaxed);
        }
    }

    // How many nanoseconds a wait goes on that began then: from then, or from when a byte last moved. A clock that can't be
    // read is as one that says that it is over.
    fn left(&self, since: u64, patience: u64) -> u64 {
        let from = since.max(self.moved.load(Ordering::Relaxed));
        match self.now() {
            Ok(now) => from.saturating_add(patience).saturating_sub(now),
            Err(_) => 0,
        }
    }

    // Waits for the socket, and for the client to go.
    fn wait(&self, socket: RawFd, client: Option<RawFd>, seconds: u32) -> Waited {
        let patience = nanos_of(time_of(seconds));
        let Ok(since) = self.now() else {
            return Waited::Ready;
        };
        let mut left = patience;
        for _ in 0..u64::MAX {
            match watch(Some(socket), client, left) {
                Look::Ready => return Waited::Ready,
                Look::Gone => return Waited::Gone,
                Look::Nothing => {}
            }
            left = self.left(since, patience);
            if left == 0 {
                return Waited::Late;
            }
        }
        Waited::Late
    }

    // The client's socket.
    fn client(&self) -> Option<RawFd> {
        match &self.client {
            Some(client) => Some(client.as_raw_fd()),
            None => None,
        }
    }

    /// Waits until the client's socket can be read, so many seconds at most from when a byte last moved.
    pub fn wait_for_client(&self, socket: RawFd, seconds: u32) -> Waited {
        self.wait(socket, None, seconds)
    }

    /// Waits until the socket can be read, so many seconds at most from when a byte last moved, or until the client has gone.
    pub fn wait_beside_client(&self, socket: RawFd, seconds: u32) -> Waited {
        self.wait(socket, self.client(), seconds)
    }

    /// Whether the client has gone.
    pub fn is_client_gone(&self) -> bool {
        matches!(watch(None, self.client(), 0), Look::Gone)
    }

    /// Has the system ask the client's host from time to time whether the client is still there. A refusal changes only how
    /// soon a client is found to have gone.
    pub fn probe_client(&self) {
        if let Some(client) = self.client() {
            probe(client);
        }
    }
}
