//! A relay between two servers on 127.0.0.1.

use fw_outside::{Dialed, Dialer};
use fw_types::{Dest, Host, read_numbered_port};
use lines_of_rows::number_of;
use real_links::{LinkSink, LinkSource, TcpDialer};
use relay_ways::{WayEnd, both_ways};
use std::io::{self, ErrorKind};
use std::net::TcpStream;
use std::thread::Threads;

fn failure(kind: ErrorKind) -> io::Error {
    io::Error::from(kind)
}

// A link to this port.
fn dial(
    dialer: &mut TcpDialer<HostRuntime>,
    port: &str,
) -> io::Result<(LinkSource<TcpStream>, LinkSink<TcpStream>)> {
    let Some(port) = read_numbered_port(port.as_bytes()) else {
        return Err(failure(ErrorKind::InvalidInput));
    };
    let host = Host::Addr([127, 0, 0, 1]);
    match dialer.dial(&Dest { host, port }) {
        Dialed::Up(from, to) => Ok((from, to)),
        Dialed::Refused => Err(failure(ErrorKind::ConnectionRefused)),
    }
}

fn word_of(end: WayEnd) -> &'static str {
    match end {
        WayEnd::Done => "done",
        WayEnd::ReadFault => "read-fault",
        WayEnd::WriteFault => "write-fault",
        WayEnd::Idle => "idle",
        WayEnd::Spent => "spent",
    }
}

/// Relays between the two ports, and tells how the way from the first ended, and the one to it.
pub(crate) fn relay<H: Threads + Sync>(
    threads: &H,
    rt: HostRuntime,
    ports: (&str, &str),
    seconds: &str,
) -> io::Result<(&'static str, &'static str)> {
    let mut dialer = TcpDialer::new(rt, rt.alloc(), None);
    dialer.patience(number_of(seconds.as_bytes()).min(3600) as u32);
    let (mut from, mut to) = dial(&mut dialer, ports.0)?;
    let (mut server_in, mut server_out) = dial(&mut dialer, ports.1)?;
    let most = 1 << 40;
    let (up, down) = both_ways(
        threads,
        &mut from,
        &mut to,
        &mut server_in,
        &mut server_out,
        most,
        most,
    );
    dialer.hang_up(server_in, server_out);
    dialer.hang_up(from, to);
    Ok((word_of(up), word_of(down)))
}
