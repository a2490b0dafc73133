//! Who waits for clients at a port.
ghost use Rattle.std.specs.Prelude.{◌≡◌, IfSome, true};
ghost use Rattle.std.specs.Arc.{arc_value};
ghost use Rattle.acceptors.specs.AcceptorView.{Comes, Ends, Fails, HasOut, TakesBack};
ghost use Rattle.acceptors.specs.Knocks.{IfEnd, IfFailed, IfSession};
ghost use Rattle.fw_outside.specs.Counts.{Grew, Rose, counted};
ghost use Rattle.real_doors.specs.Doors.{IsSamePlace, tcp_acceptor_view};
ghost use Rattle.real_doors.specs.Guests.{Greets, visit_of};

use crate::accepting::is_lasting;
use crate::entrance::Entrance;
use crate::guests::{TcpCaller, arrived, caller};
use crate::{HostNames, SystemPacer};
use acceptors::{Acceptor, Knock, Pacer};
use fw_real::{Reading, Salts, StandardInput, SystemClock, Writing};
use gate_rules::Service;
use real_links::{DoorPorts, LinkSink, StandardOutput, TcpDialer};
use std::alloc::Global;
use std::io::Stderr;
use std::net::{SocketAddr, TcpStream};
use std::sync::Arc;

// How many milliseconds a door rests where nobody came in.
const REST: u32 = 50;

/// A door of a server: it waits for clients of a service at a port of this host, and tells only counts.
///
/// A client whom the system refuses a device is closed, and the door waits for the next. After a fault that passes it rests
/// and waits on; one that lasts is a failure. Once the door's listener is closed no more clients come.
#[derive(Drop)]
pub struct TcpAcceptor {
    rt: HostRuntime,
    service: Service,
    port: u16,
    ports: DoorPorts,
    entrance: Option<Arc<Entrance, Global>>,
    names: Arc<HostNames, Global>,
    came: u64,
    returned: u64,
    over: bool,
    ends: u64,
    faults: u64,
}

impl TcpAcceptor {
    /// A door for this service at this port, where a listener is open there; without one it fails at each call. Its clients'
    /// doors for data links are at these ports. Nothing is counted yet.
    pub(crate) fn new(
        rt: HostRuntime,
        service: Service,
        port: u16,
        ports: DoorPorts,
        entrance: Option<Arc<Entrance, Global>>,
        names: Arc<HostNames, Global>,
    ) -> TcpAcceptor
        ensures service { result.service ≡ service }
        ensures port { result.port ≡ port }
        ensures entrance { result.entrance ≡ entrance }
    {
        TcpAcceptor {
            rt,
            service,
            port,
            ports,
            entrance,
            names,
            came: 0,
            returned: 0,
            over: false,
            ends: 0,
            faults: 0,
        }
    }

    /// The service that clients ask.
    pub fn service(&self) -> &Service
        ensures { result.now ≡ self.now.service }
    {
        &self.service
    }

    /// The port at which it waits.
    pub fn port(&self) -> u16
        ensures { result ≡ self.now.port }
    {
        self.port
    }

    /// Whether its port could be opened.
    pub fn is_open(&self) -> bool {
        self.entrance.is_some()
    }

    fn let_in(&self, socket: TcpStream, from: SocketAddr) -> Option<TcpCaller>
        ensures { IfSome result (λ caller.
            Greets self.now.service (arc_value self.now.names) (visit_of caller)) }
    {
        let arrival = arrived(socket, from)?;
        caller(self.rt, &self.service, &self.names, self.ports, arrival)
    }

    // Waits once. Nothing where nobody came in, and the next may.
    fn wait_once(&self, entrance: &Entrance) -> Option<Knock<TcpCaller>>
        ensures { IfSome result (λ knock. IfSession knock (λ caller.
            Greets self.now.service (arc_value self.now.names) (visit_of caller))) }
    {
        match entrance.accept() {
            Ok((socket, from)) => match self.let_in(socket, from) {
                Some(caller) => Some(Knock::Session(caller)),
                None => None,
            },
            Err(fault) if is_lasting(&fault) => Some(Knock::Failed),
            Err(_) => None,
        }
    }

    fn rest(&self) {
        SystemPacer::new(self.rt, REST, REST).rest();
    }

    // Waits for the next client.
    fn wait_at(&self, entrance: &Entrance) -> Knock<TcpCaller>
        ensures { IfSession result (λ caller.
            Greets self.now.service (arc_value self.now.names) (visit_of caller)) }
    {
        for _ in 0..u64::MAX {
            let knock = self.wait_once(entrance);
            if entrance.is_closed() {
                return Knock::End;
            }
            match knock {
                Some(knock) => return knock,
                None => self.rest(),
            }
        }
        Knock::Failed
    }

    fn wait(&self) -> Knock<TcpCaller>
        ensures { IfSession result (λ caller.
            Greets self.now.service (arc_value self.now.names) (visit_of caller)) }
    {
        match &self.entrance {
            Some(entrance) => self.wait_at(entrance),
            None => Knock::Failed,
        }
    }

    fn count_came(&mut self)
        ensures grew { Grew 1 self.old.came self.new.came }
        ensures is { self.new ≡ record self.old { came = counted self.old.came } }
    {
        self.came = self.came.saturating_add(1);
    }

    fn count_back(&mut self)
        ensures grew { Grew 1 self.old.returned self.new.returned }
        ensures is { self.new ≡ record self.old { returned = counted self.old.returned } }
    {
        self.returned = self.returned.saturating_add(1);
    }

    fn end(&mut self)
        ensures grew { Grew 1 self.old.ends self.new.ends }
        ensures is { self.new ≡ record self.old { over = true; ends = counted self.old.ends } }
    {
        self.over = true;
        self.ends = self.ends.saturating_add(1);
    }

    fn fail(&mut self)
        ensures rose { Rose self.old.faults self.new.faults }
        ensures is { self.new ≡ record self.old { faults = counted self.old.faults } }
    {
        self.faults = self.faults.saturating_add(1);
    }
}

impl Acceptor for TcpAcceptor {
    type From = Reading<StandardInput>;

    type To = LinkSink<StandardOutput>;

    type Logs = Writing<Stderr>;

    type Dial = TcpDialer<HostRuntime>;

    type Tick = SystemClock<HostRuntime>;

    type Rand = Salts;

    ghost acceptor_view = { tcp_acceptor_view };

    fn next(&mut self) -> Knock<TcpCaller>
        ensures session { IfSession result (λ caller. Comes (visit_of caller)
            (tcp_acceptor_view self.old) (tcp_acceptor_view self.new)) }
        ensures end { IfEnd result (Ends (tcp_acceptor_view self.old) (tcp_acceptor_view self.new)) }
        ensures failed { IfFailed result (Fails (tcp_acceptor_view self.old) (tcp_acceptor_view self.new)) }
        ensures greets { IfSession result (λ caller.
            Greets self.old.service (arc_value self.old.names) (visit_of caller)) }
        ensures place { IsSamePlace self.old self.new }
    {
        match self.wait() {
            Knock::Session(caller) => {
                self.count_came();
                Knock::Session(caller)
            }
            Knock::End => {
                self.end();
                Knock::End
            }
            Knock::Failed => {
                self.fail();
                self.end();
                Knock::Failed
            }
        }
    }

    /// The client's socket is closed.
    fn back(&mut self, caller: TcpCaller)
        requires { HasOut (tcp_acceptor_view self.old) }
        ensures takes { TakesBack (visit_of caller) (tcp_acceptor_view self.old) (tcp_acceptor_view self.new) }
        ensures place { IsSamePlace self.old self.new }
    {
        drop(caller);
        self.count_back();
    }
}
