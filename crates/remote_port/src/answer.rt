//! What a server's line answers.
ghost use Rattle.std.specs.Prelude.{◌≡◌, MatchOption};
ghost use Rattle.auth_events.specs.declared.reply.Reply.{Reply};
ghost use Rattle.remote_port.specs.Answers.{IsAnswer, IsAnswered, SaysReply, is_full, is_kept, limit_told, may_answer};

use crate::request::{has_line, is_authenticate, is_open};
use auth_events::{Denial, PortFault, Reply, Request};
use authsrv_lines::{laws, read_reply};
use fw_outside::{Heard, Stop};

/// How many entries fit, where the reply tells it.
pub(crate) fn limit_told(reply: &Reply) -> Option<u64>
    ensures { result ≡ limit_told reply.now }
{
    match reply {
        Reply::Denied(Denial::Full { limit }) => Some(*limit),
        _ => None,
    }
}

/// Whether the change that was asked for, if any, was stored.
pub(crate) fn is_kept(reply: &Reply) -> bool
    ensures { result ≡ is_kept reply.now }
{
    !matches!(reply, Reply::Denied(Denial::NotKept))
}

fn is_full(denial: &Denial) -> bool
    ensures { result ≡ is_full denial.now }
{
    matches!(denial, Denial::Full { .. })
}

// Whether the reply may answer the request.
fn may_answer(request: &Request, reply: &Reply) -> bool
    ensures { result ≡ may_answer request.now reply.now }
{
    match reply {
        Reply::Opened { .. } => is_open(request),
        Reply::Password | Reply::Challenge { .. } => is_authenticate(request),
        Reply::Ok => has_line(request) && !is_authenticate(request),
        Reply::Shown(_) => false,
        Reply::Denied(denial) => has_line(request) || (is_open(request) && is_full(denial)),
    }
}

// The reply that a line says; an Open's is of this place.
fn said(place: u64, line: &[u8]) -> Option<Reply>
    ensures { MatchOption result ((reply : Reply) → ¬ (SaysReply place line.now reply)) (λ reply. SaysReply place line.now reply) }
{
    if line == b"authsrv ready".as_slice() {
        return Some(Reply::Opened { sid: place });
    }
    read_reply(line)
}

// The reply that the line is to the request, whose entry has this place.
fn answer_in(request: &Request, place: u64, line: &[u8]) -> Option<Reply>
    ensures { MatchOption result ((reply : Reply) → ¬ (IsAnswer request.now place line.now reply)) (λ reply. IsAnswer request.now place line.now reply) }
{
    laws::inverse();
    match said(place, line) {
        Some(reply) => {
            if may_answer(request, &reply) {
                Some(reply)
            } else {
                None
            }
        }
        None => None,
    }
}

/// What the request is answered, by what was heard.
pub(crate) fn answer_to(request: &Request, place: u64, heard: Heard) -> Result<Reply, PortFault>
    ensures { IsAnswered request.now place heard result }
{
    match heard {
        Heard::Line(line) => match answer_in(request, place, line.as_slice()) {
            Some(reply) => Ok(reply),
            None => Err(PortFault::Strange),
        },
        Heard::TooLong => Err(PortFault::Strange),
        Heard::Stopped(Stop::End) => Err(PortFault::Strange),
        Heard::Stopped(Stop::Spent) => Err(PortFault::Strange),
        Heard::Stopped(Stop::Idle) => Err(PortFault::Link),
        Heard::Stopped(Stop::Failed) => Err(PortFault::Link),
    }
}
