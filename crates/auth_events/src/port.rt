ghost use Rattle.auth_events.specs.Port.{Port, Asks};

use crate::{Reply, Request};
use std::fmt::Debug;
use thiserror::Error;

/// Why a port gives no reply.
#[derive(Clone, Copy, Debug, PartialEq, Eq, Error)]
pub enum PortFault {
    #[error("no memory")]
    NoMemory,
    /// What carries requests and replies failed.
    #[error("the link failed")]
    Link,
    /// The other end answered what no service answers, or the port was used as none may be.
    #[error("a strange answer")]
    Strange,
}

/// Whatever answers requests.
pub trait AuthPort: Drop {
    /// What stays as it was when the history began: the policy and the records that its answers stand on, and the like.
    /// A layer above chooses the type, as a plain struct that need not be made when the program runs.
    type Origin;

    /// What the port has seen of which history, and the counts.
    ghost port: { Self → Port Self.Origin };

    /// Asks this request for the session of this number, at this moment in seconds. A new session's number is the
    /// one that `Opened` gives, whatever number is handed in.
    fn ask(&mut self, sid: u64, at: u64, request: Request) -> Result<Reply, PortFault>
        ensures { Asks result sid at request (port self.old) (port self.new) };
}
