//! What is told of links to a server on 127.0.0.1, which is this process.

use fw_outside::{Dialed, Dialer, Failed, Got, Sink, Source};
use fw_types::{Dest, Host};
use lines_of_rows::{Told, add, add_word, cut, cut_word};
use real_links::{ClientHosts, LinkSink, LinkSource, TcpDialer};
use std::io::{self, ErrorKind, Read, Write};
use std::net::{Ipv4Addr, TcpListener, TcpStream};

/// The two ends of a link, and the server's socket.
#[derive(Drop)]
struct Called {
    from: LinkSource<TcpStream>,
    to: LinkSink<TcpStream>,
    server: Option<TcpStream>,
}

// A door of 127.0.0.1, and its port.
fn door(rt: HostRuntime) -> io::Result<(TcpListener, u16)> {
    let door = TcpListener::bind(&rt, (Ipv4Addr::LOCALHOST, 0))?;
    let port = door.local_addr()?.port();
    Ok((door, port))
}

fn loopback(port: u16) -> Dest {
    Dest {
        host: Host::Addr([127, 0, 0, 1]),
        port,
    }
}

// What a dialer that waits a second answers to a server of its own, asked for a link of this kind.
fn call(rt: HostRuntime, kind: &str) -> io::Result<Option<Called>> {
    let (door, port) = door(rt)?;
    let mut dialer = TcpDialer::new(rt, rt.alloc(), None);
    dialer.patience(1);
    let dialed = match kind {
        "side" => dialer.side(&loopback(port)),
        "back" => dialer.back([127, 0, 0, 1], port),
        _ => dialer.dial(&loopback(port)),
    };
    match dialed {
        Dialed::Up(from, to) => {
            let (server, _) = door.accept()?;
            let server = Some(server);
            Ok(Some(Called { from, to, server }))
        }
        Dialed::Refused => Ok(None),
    }
}

fn tell_take(from: &mut LinkSource<TcpStream>, out: &mut Told) {
    let mut buffer = [0; 16];
    match from.take(&mut buffer) {
        Ok(Got::Bytes(count)) => add_word(out, &buffer[..count]),
        Ok(Got::End) => add_word(out, b"-end"),
        Ok(Got::Idle) => add_word(out, b"-idle"),
        Err(Failed) => add_word(out, b"-failed"),
    }
}

fn tell_answer(answer: Result<(), Failed>, out: &mut Told) {
    match answer {
        Ok(()) => add_word(out, b"ok"),
        Err(Failed) => add_word(out, b"failed"),
    }
}

// What the server hears in one read.
fn tell_heard(server: &mut Option<TcpStream>, out: &mut Told) {
    let mut buffer = [0; 16];
    let Some(server) = server else {
        return add_word(out, b"-gone");
    };
    match server.read(&mut buffer) {
        Ok(0) => add_word(out, b"-end"),
        Ok(count) => add_word(out, &buffer[..count.min(16)]),
        Err(_) => add_word(out, b"-failed"),
    }
}

// The server says this.
fn say(server: &mut Option<TcpStream>, text: &[u8], out: &mut Told) {
    let Some(server) = server else {
        return add_word(out, b"-gone");
    };
    if server.write_all(text).is_err() {
        add_word(out, b"-failed");
    }
}

// Gives pieces of 64 KB until one is refused, but no more than 1,000.
fn tell_flood(to: &mut LinkSink<TcpStream>, out: &mut Told) {
    for _ in 0..1000 {
        if to.give(&[0; 65536]).is_err() {
            return add_word(out, b"failed");
        }
    }
    add_word(out, b"ok");
}

fn tell_step(called: &mut Called, step: &[u8], out: &mut Told) {
    let (verb, text) = cut(step, b'=');
    match verb {
        b"take" => tell_take(&mut called.from, out),
        b"give" => tell_answer(called.to.give(text), out),
        b"end" => tell_answer(called.to.end(), out),
        b"flood" => tell_flood(&mut called.to, out),
        b"hear" => tell_heard(&mut called.server, out),
        b"say" => say(&mut called.server, text, out),
        b"leave" => called.server = None,
        _ => add_word(out, b"no such step"),
    }
}

fn tell_steps(called: &mut Called, steps: &[u8], out: &mut Told) {
    for step in steps.split(|byte| *byte == b' ') {
        tell_step(called, step, out);
    }
}

/// `link STEP .. => TOLD ..`: over a link that waits a second, or over a data link for `side` or `back`. `take`,
/// `give=TEXT`, `flood` and `end` are calls of the link; the server hears by `hear`, speaks by `say=TEXT`, and goes by
/// `leave`.
pub(crate) fn tell_link(rt: HostRuntime, kind: &str, asked: &[u8], out: &mut Told) {
    match call(rt, kind) {
        Ok(Some(mut called)) => tell_steps(&mut called, asked, out),
        _ => add(out, b"-refused"),
    }
}

/// A dialer that waits a second, for the client of this address; for none if it is no address.
pub(crate) fn dialer_for(rt: HostRuntime, client: &[u8]) -> TcpDialer<HostRuntime> {
    let hosts = match Host::read(client) {
        Some(Host::Addr(there)) => Some(ClientHosts {
            here: [127, 0, 0, 1],
            there,
        }),
        _ => None,
    };
    let mut dialer = TcpDialer::new(rt, rt.alloc(), hosts);
    dialer.patience(1);
    dialer
}

// Opens a door, at which somebody of 127.0.0.1 knocks, and waits there: the link, if it came up, and who knocked.
fn knock(
    rt: HostRuntime,
    dialer: &mut TcpDialer<HostRuntime>,
) -> io::Result<
    (
        Dialed<LinkSource<TcpStream>, LinkSink<TcpStream>>,
        TcpStream,
    ),
> {
    let Some(opened) = dialer.door() else {
        return Err(io::Error::from(ErrorKind::NotFound));
    };
    let host = opened.1;
    let port = opened.2;
    let mut door = opened.0;
    let addr = Ipv4Addr::from_octets(host);
    let knocking = TcpStream::connect(&rt, (addr, port))?;
    let dialed = dialer.accept(&mut door);
    Ok((dialed, knocking))
}

// Tells the steps over a link that came up, or what was heard who knocked where none did.
fn tell_dialed(
    dialed: Dialed<LinkSource<TcpStream>, LinkSink<TcpStream>>,
    knocking: TcpStream,
    steps: &[u8],
    out: &mut Told,
) {
    let mut server = Some(knocking);
    match dialed {
        Dialed::Up(from, to) => tell_steps(&mut Called { from, to, server }, steps, out),
        Dialed::Refused => {
            add_word(out, b"-refused");
            tell_heard(&mut server, out);
        }
    }
}

/// `door HOST STEP .. => TOLD ..`: over a data link that somebody of 127.0.0.1 makes at a door for the client HOST; the
/// steps are as for a link. `-refused` if nobody came up in a second, and what was heard who knocked; `-none` if no door
/// opened.
pub(crate) fn tell_door(rt: HostRuntime, asked: &[u8], out: &mut Told) {
    let (client, steps) = cut_word(asked);
    let mut dialer = dialer_for(rt, client);
    match knock(rt, &mut dialer) {
        Ok((dialed, knocking)) => tell_dialed(dialed, knocking, steps, out),
        Err(_) => add_word(out, b"-none"),
    }
}

/// `host HOST WORD => up`, or `refused`: whether a link to this host comes up, at the port of a server on 127.0.0.1; with
/// `gone` for the word the server is gone before.
pub(crate) fn tell_host(rt: HostRuntime, asked: &[u8], out: &mut Told) {
    let (host, word) = cut_word(asked);
    let (Some(host), Ok((door, port))) = (Host::read(host), door(rt)) else {
        return add(out, b"-");
    };
    let mut held = Some(door);
    if word == b"gone".as_slice() {
        held = None;
    }
    let mut dialer = TcpDialer::new(rt, rt.alloc(), None);
    dialer.patience(5);
    match dialer.dial(&Dest { host, port }) {
        Dialed::Up(from, to) => {
            add(out, b"up");
            dialer.hang_up(from, to);
        }
        Dialed::Refused => add(out, b"refused"),
    }
    drop(held);
}
