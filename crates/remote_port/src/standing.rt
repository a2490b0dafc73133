//! How a port stands with its server, and what becomes of a request.
ghost use Rattle.std.specs.Prelude.{◌≡◌};
ghost use Rattle.remote_port.specs.Treatment.{refused_or_strange, standing_after, treatment_of};
ghost use Rattle.remote_port.specs.declared.standing.Standing.TheVariants.{New, Open, Closed};

use crate::request::{has_line, is_close, is_open};
use auth_events::{Reply, Request};

/// How a port stands with its server.
#[derive(Clone, Copy, Debug, PartialEq, Eq)]
pub enum Standing {
    /// Nothing was asked of it.
    New,
    /// The session with this number is open.
    Open { sid: u64 },
    /// The session was closed.
    Closed,
    /// No more entries fit there; how many fit.
    Full { limit: u64 },
    /// The link failed, or something strange came.
    Lost,
}

/// What becomes of a request.
#[derive(Clone, Copy)]
pub(crate) enum Treatment {
    /// It is answered that something strange came.
    Strange,
    /// It is answered that no more entries fit.
    Full { limit: u64 },
    /// It is answered that the session isn't open.
    Refuse,
    /// The server is asked.
    Send,
}

fn refused_or_strange(has_line: bool) -> Treatment
    ensures { result ≡ refused_or_strange has_line }
{
    if has_line {
        Treatment::Refuse
    } else {
        Treatment::Strange
    }
}

fn before_session(request: &Request) -> Treatment
    ensures { result ≡ treatment_of New 0 request.now }
{
    if is_open(request) {
        return Treatment::Send;
    }
    refused_or_strange(has_line(request))
}

fn in_session(own: u64, sid: u64, request: &Request) -> Treatment
    ensures { result ≡ treatment_of (Open own) sid request.now }
{
    let has_line = has_line(request);
    if has_line && sid == own {
        return Treatment::Send;
    }
    refused_or_strange(has_line)
}

/// What becomes of this request for the session of this number.
pub(crate) fn treatment_of(standing: Standing, sid: u64, request: &Request) -> Treatment
    ensures { result ≡ treatment_of standing sid request.now }
{
    match standing {
        Standing::New => before_session(request),
        Standing::Open { sid: own } => in_session(own, sid, request),
        Standing::Closed => refused_or_strange(has_line(request)),
        Standing::Full { limit } => Treatment::Full { limit },
        Standing::Lost => Treatment::Strange,
    }
}

fn after_ok(standing: Standing, request: &Request) -> Standing
    ensures { result ≡ standing_after standing request.now Reply.Ok }
{
    if is_close(request) {
        Standing::Closed
    } else {
        standing
    }
}

/// How the port stands after this reply.
pub(crate) fn standing_after(standing: Standing, request: &Request, reply: &Reply) -> Standing
    ensures { result ≡ standing_after standing request.now reply.now }
{
    match reply {
        Reply::Opened { sid } => Standing::Open { sid: *sid },
        Reply::Ok => after_ok(standing, request),
        _ => standing,
    }
}
