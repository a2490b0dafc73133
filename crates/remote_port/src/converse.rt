//! A request: what becomes of it, and what it is answered.
ghost use Rattle.std.specs.Prelude.{◌≡◌, ◌<◌, length, vec_len};
ghost use Rattle.std.specs.Vec.{vec_capacity};
ghost use Rattle.remote_port.specs.Remote.{Converses, IsRefused, IsSent};
ghost use Rattle.remote_port.specs.Talk.{talk_after, talk_of, with_reply};
ghost use Rattle.remote_port.specs.Answers.{limit_told};

use crate::answer::{answer_to, limit_told};
use crate::link::Link;
use crate::request::{form_of, written};
use crate::standing::{Treatment, treatment_of};
use crate::talk::Talk;
use auth_events::{Denial, PortFault, Reply, Request};
use fw_outside::{Sink, Source};

// Notes a reply, for which there is room.
fn note_reply(talk: &mut Talk, sid: u64, at: u64, request: Request, reply: Reply) -> Reply
    requires room { vec_len talk.old.seen < vec_capacity talk.old.seen }
    ensures same { result ≡ reply }
    ensures talk { talk_of talk.new ≡ with_reply (limit_told reply) sid at request reply (talk_of talk.old) }
{
    let told = reply.twin();
    match limit_told(&reply) {
        Some(limit) => talk.be_full(limit),
        None => talk.enter(sid, at, request, reply),
    }
    told
}

// Notes an answer, for which there is room.
fn note(
    talk: &mut Talk,
    sid: u64,
    at: u64,
    request: Request,
    answer: Result<Reply, PortFault>,
) -> Result<Reply, PortFault>
    requires room { vec_len talk.old.seen < vec_capacity talk.old.seen }
    ensures same { result ≡ answer }
    ensures talk { talk_of talk.new ≡ talk_after answer sid at request (talk_of talk.old) }
{
    match answer {
        Ok(reply) => Ok(note_reply(talk, sid, at, request, reply)),
        Err(PortFault::NoMemory) => Err(PortFault::NoMemory),
        Err(PortFault::Link) => {
            talk.be_lost();
            Err(PortFault::Link)
        }
        Err(PortFault::Strange) => {
            talk.be_strange();
            Err(PortFault::Strange)
        }
    }
}

// Refuses a request without asking the server.
fn refuse(talk: &mut Talk, sid: u64, at: u64, request: Request) -> Result<Reply, PortFault>
    ensures answer { IsRefused result }
    ensures talk { talk_of talk.new ≡ talk_after result sid at request (talk_of talk.old) }
{
    if talk.make_room().is_err() {
        return Err(PortFault::NoMemory);
    }
    talk.enter(sid, at, request, Reply::Denied(Denial::Closed));
    Ok(Reply::Denied(Denial::Closed))
}

// What the server answers.
fn ask_server<S: Source, K: Sink>(
    link: &mut Link<S, K>,
    place: u64,
    request: &Request,
) -> Result<Reply, PortFault>
    ensures { IsSent result request.now place link.old link.new }
{
    match link.exchange(written(request).as_slice()) {
        Ok(heard) => answer_to(request, place, heard),
        Err(_) => Err(PortFault::Link),
    }
}

// Asks the server.
fn send<S: Source, K: Sink>(
    talk: &mut Talk,
    link: &mut Link<S, K>,
    sid: u64,
    at: u64,
    request: Request,
) -> Result<Reply, PortFault>
    ensures sent { IsSent result request (length talk.old.seen.items) link.old link.new }
    ensures talk { talk_of talk.new ≡ talk_after result sid at request (talk_of talk.old) }
{
    if talk.make_room().is_err() {
        return Err(PortFault::NoMemory);
    }
    let answer = ask_server(link, talk.place(), &request);
    note(talk, sid, at, request, answer)
}

/// Asks this request for the session of this number, at this moment.
pub(crate) fn converse<S: Source, K: Sink>(
    talk: &mut Talk,
    link: &mut Link<S, K>,
    sid: u64,
    at: u64,
    request: Request,
) -> Result<Reply, PortFault>
    ensures { Converses result sid at request (talk_of talk.old) (talk_of talk.new) link.old link.new }
{
    form_of(&request);
    talk.count();
    match treatment_of(talk.standing, sid, &request) {
        Treatment::Strange => {
            talk.be_strange();
            Err(PortFault::Strange)
        }
        Treatment::Full { limit } => {
            talk.be_full(limit);
            Ok(Reply::Denied(Denial::Full { limit }))
        }
        Treatment::Refuse => refuse(talk, sid, at, request),
        Treatment::Send => send(talk, link, sid, at, request),
    }
}
