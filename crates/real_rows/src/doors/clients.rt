//! Clients that come in.

use crate::doors::opening::free_doors;
use acceptors::{Acceptor, Knock};
use fw_outside::{Got, Sink, Source};
use fw_types::{HostName, Peer};
use real_doors::{TcpAcceptor, TcpCaller};
use std::io::{self, Write};
use std::net::{Shutdown, TcpStream};

fn is_here(addr: Option<[u8; 4]>) -> bool {
    match addr {
        Some(host) => host == [127, 0, 0, 1],
        None => false,
    }
}

fn is_localhost(name: &Option<HostName>) -> bool {
    match name {
        Some(name) => name.text() == b"localhost".as_slice(),
        None => false,
    }
}

fn told(peer: &Peer) -> &'static str {
    if is_here(peer.addr) && is_localhost(&peer.name) {
        "known"
    } else {
        "unknown"
    }
}

// Takes some bytes from the client, and gives them back to it with the end.
fn echo(caller: &mut TcpCaller) -> &'static str {
    let mut buf = [0; 64];
    match caller.from.take(&mut buf) {
        Ok(Got::Bytes(count)) if count <= buf.len() => {
            if caller.to.give(&buf[..count]).is_err() {
                return "ungiven";
            }
            match caller.to.end() {
                Ok(()) => "echoed",
                Err(_) => "endless",
            }
        }
        Ok(_) => "silent",
        Err(_) => "failed",
    }
}

fn meet(door: &mut TcpAcceptor) -> (&'static str, &'static str) {
    match door.next() {
        Knock::Session(mut caller) => {
            let told = told(&caller.peer);
            let answer = echo(&mut caller);
            door.back(caller);
            (told, answer)
        }
        Knock::End => ("end", "none"),
        Knock::Failed => ("failed", "none"),
    }
}

fn connect(rt: &HostRuntime, port: u16, text: &[u8]) -> io::Result<TcpStream> {
    let mut socket = TcpStream::connect(rt, ("127.0.0.1", port))?;
    socket.write_all(text)?;
    socket.shutdown(Shutdown::Write)?;
    Ok(socket)
}

fn answer(rt: HostRuntime, mut socket: TcpStream) -> io::Result<String> {
    io::read_to_string(rt.alloc(), &mut socket)
}

/// Two clients of one port come in at two doors, which share its listener.
pub(crate) fn tell(rt: HostRuntime) -> io::Result<()> {
    let (mut made, port) = free_doors(rt)?;
    let first = connect(&rt, port, b"first")?;
    let second = connect(&rt, port, b"second")?;
    for door in made.doors.iter_mut() {
        let (told, answer) = meet(door);
        println!(rt; "{told} {answer}")?;
    }
    println!(rt; "{}", answer(rt, first)?)?;
    println!(rt; "{}", answer(rt, second)?)
}
