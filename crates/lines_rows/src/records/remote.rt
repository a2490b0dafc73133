//! What is told of a port to a server at the other end of a link, over both ends in memory.
ghost use Rattle.std.specs.Prelude.{◌<◌};

use arrayvec::ArrayVec;
use auth_events::{AuthPort, PortFault, Reply, Request};
use authsrv_lines::{Wire, read_request, reply_text};
use fw_memory::{Calls, MemSink, MemSource};
use fw_outside::{Got, Source};
use fw_types::{NoMemory, Octets};
use lines_of_rows::{Told, add, add_number, cut, cut_word, number_of};
use remote_port::RemotePort;
use std::alloc::Global;

/// The moment of each request.
const MOMENT: u64 = 5;

/// The salt of a new password.
const SALT: [u8; 8] = [1, 2, 3, 4, 5, 6, 7, 8];

/// The sink has room for so many bytes, where no row says less.
const ROOM: u64 = 4096;

/// So many bytes that were left in the source are told.
const LEFT: u64 = 32;

/// What breaks.
#[derive(Clone, Copy, PartialEq, Eq)]
pub(crate) enum Device {
    /// The source fails at a take.
    Source,
    /// Nothing comes at a take.
    Idle,
    /// The sink fails at a gift.
    Sink,
    /// The sink has room for no more bytes than these.
    Room,
}

/// What breaks, and at which call, or past how many bytes.
#[derive(Clone, Copy)]
pub(crate) struct Break {
    pub(crate) device: Device,
    pub(crate) at: u64,
}

/// What the server says, and the requests, with `;` between any two.
#[derive(Clone, Copy)]
pub(crate) struct Talk<'a> {
    pub(crate) said: &'a [u8],
    pub(crate) asked: &'a [u8],
}

/// What the requests were answered, with `;` between any two, what the server was given, how often something strange came, and
/// what was left in the source.
#[derive(Drop)]
pub(crate) struct Came {
    pub(crate) answers: Told,
    pub(crate) given: Told,
    pub(crate) odd: u64,
    pub(crate) left: Told,
}

// The request of a line of a client.
fn request_on(line: &[u8]) -> Option<Request> {
    match read_request(line) {
        Ok(Wire::Ask(request)) => Some(request),
        Ok(Wire::Password { name, hash }) => Some(Request::Password {
            name,
            salt: SALT,
            hash,
        }),
        Ok(Wire::List) => Some(Request::List { after: None }),
        Ok(Wire::Quit) => Some(Request::Close),
        Err(_) => None,
    }
}

fn request_of(text: &[u8]) -> Option<Request> {
    match text {
        b"open" => Some(Request::Open { console: false }),
        b"open console" => Some(Request::Open { console: true }),
        _ => request_on(text),
    }
}

fn add_reply(reply: &Reply, out: &mut Told) {
    if let Reply::Opened { sid } = reply {
        add(out, b"opened ");
        let mut number = Told::new();
        add_number(&mut number, *sid);
        return add(out, number.as_slice());
    }
    let mut text = ArrayVec::new();
    reply_text(reply, &mut text);
    add(out, text.as_slice());
}

fn add_answer(answer: &Result<Reply, PortFault>, out: &mut Told) {
    match answer {
        Ok(reply) => add_reply(reply, out),
        Err(PortFault::NoMemory) => add(out, b"NoMemory"),
        Err(PortFault::Link) => add(out, b"Link"),
        Err(PortFault::Strange) => add(out, b"Strange"),
    }
}

// Asks what the text asks, a session's number and a request, and adds the answer.
fn ask(port: &mut RemotePort<MemSource, MemSink>, text: &[u8], out: &mut Told) {
    let (sid, line) = cut_word(text);
    match request_of(line) {
        Some(request) => add_answer(&port.ask(number_of(sid), MOMENT, request), out),
        None => add(out, b"no request"),
    }
}

// The calls of the device at which it is to fail.
fn calls_of(alloc: Global, broken: Option<Break>, device: Device) -> Result<Calls, NoMemory> {
    match broken {
        Some(broken) if broken.device == device => Calls::of(alloc, &[broken.at]),
        _ => Ok(Calls::none()),
    }
}

fn room_of(broken: Option<Break>) -> usize {
    match broken {
        Some(broken) if broken.device == Device::Room => broken.at.min(ROOM) as usize,
        _ => ROOM as usize,
    }
}

fn source_of(
    alloc: Global,
    said: &[u8],
    piece: usize,
    broken: Option<Break>,
) -> Result<MemSource, NoMemory>
    requires { 0 < piece }
{
    let fails = calls_of(alloc, broken, Device::Source)?;
    let idle = calls_of(alloc, broken, Device::Idle)?;
    let said = Octets::copy(alloc, said)?;
    Ok(MemSource::new(said, piece, fails, idle))
}

fn sink_of(alloc: Global, broken: Option<Break>) -> Result<MemSink, NoMemory> {
    let fails = calls_of(alloc, broken, Device::Sink)?;
    MemSink::new(alloc, room_of(broken), fails)
}

// The first bytes that the source still has.
fn left_of(mut from: MemSource) -> Told {
    let mut left = Told::new();
    for _ in 0..LEFT {
        let mut byte = [0; 1];
        if let Ok(Got::Bytes(_)) = from.take(&mut byte) {
            add(&mut left, &byte);
        }
    }
    left
}

// What came of it.
fn came_of(port: RemotePort<MemSource, MemSink>, answers: Told) -> Came {
    let odd = port.odd();
    let (from, to) = port.into_ends();
    let mut given = Told::new();
    add(&mut given, to.bytes());
    Came {
        answers,
        given,
        odd,
        left: left_of(from),
    }
}

/// Asks all requests of a server whose bytes come so many at once, where this breaks.
pub(crate) fn talk_over(
    alloc: Global,
    talk: Talk<'_>,
    piece: usize,
    broken: Option<Break>,
) -> Result<Came, NoMemory>
    requires { 0 < piece }
{
    let from = source_of(alloc, talk.said, piece, broken)?;
    let to = sink_of(alloc, broken)?;
    let mut port = RemotePort::new(alloc, from, to);
    let mut answers = Told::new();
    for text in talk.asked.split(|byte| *byte == b';') {
        if !answers.is_empty() {
            add(&mut answers, b";");
        }
        ask(&mut port, text, &mut answers);
    }
    Ok(came_of(port, answers))
}

/// The device of this name.
pub(crate) fn device_of(name: &[u8]) -> Option<Device> {
    match name {
        b"source" => Some(Device::Source),
        b"idle" => Some(Device::Idle),
        b"sink" => Some(Device::Sink),
        b"room" => Some(Device::Room),
        _ => None,
    }
}

fn break_of(text: &[u8]) -> Option<Break> {
    let (name, at) = cut_word(text);
    Some(Break {
        device: device_of(name)?,
        at: number_of(at),
    })
}

/// What the server says, and what it is asked.
pub(crate) fn talk_of(text: &[u8]) -> Talk<'_> {
    let (said, asked) = cut(text, b'|');
    Talk { said, asked }
}

// Whether the same comes of it where more bytes come at once.
fn is_same(alloc: Global, talk: Talk<'_>, came: &Came, piece: usize) -> Result<bool, NoMemory>
    requires { 0 < piece }
{
    let other = talk_over(alloc, talk, piece, None)?;
    let same = other.answers.as_slice() == came.answers.as_slice()
        && other.given.as_slice() == came.given.as_slice()
        && other.odd == came.odd;
    drop(other);
    Ok(same)
}

/// `remote BREAK|SAID|REQUEST;.. => ANSWER;..|GIVEN|odd N|LEFT`: what a server that says this answers, whose bytes come one by one;
/// where nothing breaks it is asked again where they come 7 at once, and all at once.
pub(crate) fn tell_remote(alloc: Global, asked: &[u8], out: &mut Told) -> Result<(), NoMemory> {
    let (broken, rest) = cut(asked, b'|');
    let broken = break_of(broken);
    let talk = talk_of(rest);
    let came = talk_over(alloc, talk, 1, broken)?;
    if broken.is_none()
        && !(is_same(alloc, talk, &came, 7)? && is_same(alloc, talk, &came, 4096)?)
    {
        add(out, b"otherwise in other pieces: ");
    }
    add(out, came.answers.as_slice());
    add(out, b"|");
    add(out, came.given.as_slice());
    add(out, b"|odd");
    add_number(out, came.odd);
    add(out, b"|");
    add(out, came.left.as_slice());
    drop(came);
    Ok(())
}
