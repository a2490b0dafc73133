//! A client of a server in whose history there is room for few requests, or whose port fails.
ghost use Rattle.client_service.specs.Conn.{IsServed};

use auth_events::{Entry, Request};
use auth_machine::{Book, OpenFault, Policy};
use auth_port::FaultyPort;
use bastion::{Authorities, Command, GatewayKind, Order, Outcome, conn, read_order, table_named};
use fw_memory::{Calls, MemFiles, MemKeeper, MemSource};
use fw_outside::Files;
use fw_types::{Ending, Octets, Peer};
use gate_rules::{Rules, Service};
use netperm_table::Table;
use runs_of_rows::{Devices, Ended};
use session_acts::NoStore;
use std::alloc::Global;
use std::thread::Threads;

/// The status of a row that can't be served: its words are of no client, or its table or records can't be read, or the
/// history had more entries than fit.
const UNSERVED: u8 = 255;

/// Who is served, by which service, and by which rules.
#[derive(Drop)]
struct Server {
    service: Service,
    peer: Peer,
    rules: Rules,
}

fn client_of(words: &[Octets]) -> Option<(Service, Peer)> {
    match read_order(words) {
        Some(Order::ByTable(Command::Authsrv(client))) if !client.console => {
            Some((Service::Authsrv, client.peer))
        }
        Some(
            Order::ByTable(
                Command::Gateway {
                    kind: GatewayKind::Telnet,
                    authorities: Authorities::Records,
                    peer,
                },
            ),
        ) => Some((Service::TnGw, peer)),
        Some(
            Order::ByTable(
                Command::Gateway {
                    kind: GatewayKind::Ftp,
                    authorities: Authorities::Records,
                    peer,
                },
            ),
        ) => Some((Service::FtpGw, peer)),
        _ => None,
    }
}

fn table_in(alloc: Global, mut source: MemSource) -> Option<Table> {
    let table = Table::read(alloc, &mut source);
    drop(source);
    table.ok()
}

fn server_in(alloc: Global, words: &[Octets], files: &mut MemFiles) -> Option<(Server, Policy)> {
    let (service, peer) = client_of(words)?;
    let table = table_in(alloc, files.source(table_named(words))?)?;
    let policy = Policy::of(alloc, &table).ok()?;
    let rules = Rules::of(alloc, &table, &service).ok()?;
    let server = Server {
        service,
        peer,
        rules,
    };
    Some((server, policy))
}

// Whether the last entry closes the first session.
fn is_closed(history: &[Entry]) -> bool {
    match history.last() {
        Some(entry) => entry.sid == 0 && matches!(entry.request, Request::Close),
        None => false,
    }
}

// Ends the book, and says what it came to.
fn close(book: Book<MemKeeper>, limit: u64, ending: Ending, ended: &mut Ended) {
    let refused = book.refused();
    let (keeper, history) = book.close();
    ended.closed = is_closed(&history);
    ended.status = if history.len() as u64 > limit {
        UNSERVED
    } else {
        Outcome::Ended { ending, refused }.status()
    };
    ended.keeper = Some(keeper);
}

// The one call of `conn`.
fn conn_as<H: Threads + Sync>(
    rt: &H,
    alloc: Global,
    service: &Service,
    server: &Server,
    port: &mut FaultyPort<MemKeeper>,
    ended: &mut Ended,
) -> Ending
    requires { IsServed service.now server.now.rules }
{
    let mut store = NoStore;
    conn(
        rt,
        alloc,
        service,
        &server.rules,
        &server.peer,
        port,
        &mut ended.devices.talk.input,
        &mut ended.devices.talk.output,
        &mut ended.devices.place.logs,
        &mut ended.devices.helpers.dialer,
        &mut store,
        &mut ended.devices.place.clock,
        &mut ended.devices.place.dice,
    )
}

// A client of a gateway, or else of the server.
fn conn_over<H: Threads + Sync>(
    rt: &H,
    alloc: Global,
    server: &Server,
    port: &mut FaultyPort<MemKeeper>,
    ended: &mut Ended,
) -> Ending {
    match server.service {
        Service::TnGw => conn_as(rt, alloc, &Service::TnGw, server, port, ended),
        Service::FtpGw => conn_as(rt, alloc, &Service::FtpGw, server, port, ended),
        _ => conn_as(rt, alloc, &Service::Authsrv, server, port, ended),
    }
}

// Serves the client, and says what it came to.
fn hold<H: Threads + Sync>(
    rt: &H,
    alloc: Global,
    server: &Server,
    mut port: FaultyPort<MemKeeper>,
    limit: u64,
    ended: &mut Ended,
) {
    let ending = conn_over(rt, alloc, server, &mut port, ended);
    close(port.into_book(), limit, ending, ended);
}

// The same over a book, where it is opened.
fn hold_book<H: Threads + Sync>(
    rt: &H,
    alloc: Global,
    server: &Server,
    book: Result<Book<MemKeeper>, (MemKeeper, OpenFault)>,
    fails: Calls,
    limit: u64,
    ended: &mut Ended,
) {
    match book {
        Ok(book) => hold(
            rt,
            alloc,
            server,
            FaultyPort::new(book, fails),
            limit,
            ended,
        ),
        Err(refused) => {
            drop(refused);
            drop(fails);
        }
    }
}

/// Serves the client of the command line over a history with room for so many requests, or for as many as ever fit, by a port
/// whose link fails at these requests, or at none.
pub(crate) fn serve_over<H: Threads + Sync>(
    rt: &H,
    alloc: Global,
    words: &[Octets],
    limit: Option<u64>,
    fails: Option<Calls>,
    devices: Devices,
    keeper: MemKeeper,
) -> Ended {
    let limit = limit.unwrap_or(u64::MAX);
    let mut ended = Ended {
        status: UNSERVED,
        devices,
        keeper: None,
        closed: false,
    };
    let fails = fails.unwrap_or(Calls::none());
    match server_in(alloc, words, &mut ended.devices.place.files) {
        Some((server, policy)) => {
            let book = Book::open(alloc, keeper, policy, limit);
            hold_book(rt, alloc, &server, book, fails, limit, &mut ended);
            drop(server);
        }
        None => {
            drop(keeper);
            drop(fails);
        }
    }
    ended
}
