ghost use Rattle.std.specs.Prelude.{◌≡◌, true, IfNone, IfOk, IfSome, None, Some, if◌then◌else◌};
ghost use Rattle.fw_outside.specs.Counts.{Grew, Rose, counted};
ghost use Rattle.fw_outside.specs.DialerView.{Accepts, ComesUp, HangsUp, IfRefused, IfUp, LetsGo, Opens, Refuses, RoseIf, TurnsAway, dialer_waiting, has_broken};
ghost use Rattle.fw_outside.specs.declared.ask.Ask.TheVariants.{Back, Door, Main, Side};
ghost use Rattle.fw_outside.specs.declared.mark.Mark.TheVariants.{Own};
ghost use Rattle.fw_types.specs.declared.host.Host.TheVariants.{Name};
ghost use Rattle.real_links.specs.Dialing.{LeadsTo, LeadsToHost, untold_dialer};
ghost use Rattle.real_links.specs.Links.{ReadsAhead, untold_sink, untold_source};
ghost use Rattle.real_links.specs.Names.{can_be_looked_up};
ghost use Rattle.real_links.specs.NewLinks.{IsNewLink};
ghost use Rattle.real_links.specs.Remote.{IfUpLeadsTo, remote_sink_view, remote_source_view};
ghost use Rattle.real_links.specs.TcpDialerView.{tcp_dialer_view};

use crate::door::{Opened, open_door, wait_at};
use crate::link::{Link, link_over, open};
use crate::names::{can_be_looked_up, without_last_period};
use crate::wait::coming;
use crate::{
    Address, ClientHosts, DoorPorts, LinkSink, LinkSource, RemoteSink, RemoteSource, TcpDoor,
};
use fw_outside::{Dialed, Dialer, Mark};
use fw_types::{Dest, Host, HostName};
use real_waits::Activity;
use std::alloc::Global;
use std::io::{self, ErrorKind};
use std::net::{HostAddrs, Net, SocketAddr, ToSocketAddrs};
use std::str;
use std::sync::Arc;
use std::time::Clock;

// The addresses of a name. That they are the name's is the system's word.
fn look_up<R: Net>(net: &R, name: &[u8], port: u16) -> io::Result<HostAddrs>
    requires { can_be_looked_up name.now ≡ true }
{
    match str::from_utf8(name) {
        Ok(text) => (text, port).to_socket_addrs(net),
        Err(_) => Err(io::Error::from(ErrorKind::InvalidInput)),
    }
}

// Whether the source or the sink failed.
fn has_broken<S>(from: &LinkSource<S>, to: &LinkSink<S>) -> bool
    ensures { result ≡ has_broken
        (untold_source from.now.amount from.now.faults from.now.idles from.now.waits from.now.waited from.now.mark)
        (untold_sink to.now.faults to.now.mark) }
{
    from.faults() > 0 || to.faults() > 0
}

/// Makes links over TCP to addresses of IPv4, looks names up, and opens doors for one client. It counts the links that came
/// up, the links and doors that were refused, and of the main links and of the data links that it hung up the ones that had
/// failed and those that had been idle.
#[derive(Drop)]
pub struct TcpDialer<R> {
    net: R,
    alloc: Global,
    hosts: Option<ClientHosts>,
    ports: DoorPorts,
    waits: u32,
    came: u64,
    refusals: u64,
    link_faults: u64,
    link_idles: u64,
    data_faults: u64,
    data_idles: u64,
    activity: Option<Arc<Activity, Global>>,
}

impl<R> TcpDialer<R> {
    /// A dialer over this net, whose doors are for this client; without one it opens none. Nothing is counted yet, and its
    /// links wait an hour. Each takes 65,536 bytes, by which it reads ahead, and is refused if there is no memory for them.
    pub fn new(net: R, alloc: Global, hosts: Option<ClientHosts>) -> TcpDialer<R>
        ensures view { tcp_dialer_view result ≡ untold_dialer 0 0 0 0 0 0 3600 }
        ensures hosts { result.hosts ≡ hosts }
    {
        TcpDialer {
            net,
            alloc,
            hosts,
            ports: DoorPorts::any(),
            waits: 3600,
            came: 0,
            refusals: 0,
            link_faults: 0,
            link_idles: 0,
            data_faults: 0,
            data_idles: 0,
            activity: None,
        }
    }

    /// The same, whose doors are at these ports.
    pub fn with_doors_at(self, ports: DoorPorts) -> TcpDialer<R>
        ensures view { tcp_dialer_view result ≡ tcp_dialer_view self }
        ensures hosts { result.hosts ≡ self.hosts }
    {
        TcpDialer {
            net: self.net,
            alloc: self.alloc,
            hosts: self.hosts,
            ports,
            waits: self.waits,
            came: self.came,
            refusals: self.refusals,
            link_faults: self.link_faults,
            link_idles: self.link_idles,
            data_faults: self.data_faults,
            data_idles: self.data_idles,
            activity: self.activity,
        }
    }

    /// The same, whose links are of a session of this activity.
    pub fn within(self, activity: Option<Arc<Activity, Global>>) -> TcpDialer<R>
        ensures view { tcp_dialer_view result ≡ tcp_dialer_view self }
        ensures hosts { result.hosts ≡ self.hosts }
    {
        TcpDialer {
            net: self.net,
            alloc: self.alloc,
            hosts: self.hosts,
            ports: self.ports,
            waits: self.waits,
            came: self.came,
            refusals: self.refusals,
            link_faults: self.link_faults,
            link_idles: self.link_idles,
            data_faults: self.data_faults,
            data_idles: self.data_idles,
            activity,
        }
    }

    // Counts a link that came up.
    fn count_up(&mut self)
        ensures grew { Grew 1 self.old.came self.new.came }
        ensures is { self.new ≡ record self.old { came = counted self.old.came } }
    {
        self.came = self.came.saturating_add(1);
    }

    fn refuse(&mut self)
        ensures rose { Rose self.old.refusals self.new.refusals }
        ensures is { self.new ≡ record self.old { refusals = counted self.old.refusals } }
    {
        self.refusals = self.refusals.saturating_add(1);
    }

    // Counts a main link that failed.
    fn count_fault(&mut self, broken: bool)
        ensures rose { RoseIf broken self.old.link_faults self.new.link_faults }
        ensures is { self.new ≡ record self.old {
          link_faults = (if broken then counted self.old.link_faults else self.old.link_faults);
        } }
    {
        if broken {
            self.link_faults = self.link_faults.saturating_add(1);
        }
    }

    // Counts a main link that was idle.
    fn count_idle(&mut self, idle: bool)
        ensures rose { RoseIf idle self.old.link_idles self.new.link_idles }
        ensures is { self.new ≡ record self.old {
          link_idles = (if idle then counted self.old.link_idles else self.old.link_idles);
        } }
    {
        if idle {
            self.link_idles = self.link_idles.saturating_add(1);
        }
    }

    // Counts a data link that failed.
    fn count_data_fault(&mut self, broken: bool)
        ensures rose { RoseIf broken self.old.data_faults self.new.data_faults }
        ensures is { self.new ≡ record self.old {
          data_faults = (if broken then counted self.old.data_faults else self.old.data_faults);
        } }
    {
        if broken {
            self.data_faults = self.data_faults.saturating_add(1);
        }
    }

    // Counts a data link that was idle.
    fn count_data_idle(&mut self, idle: bool)
        ensures rose { RoseIf idle self.old.data_idles self.new.data_idles }
        ensures is { self.new ≡ record self.old {
          data_idles = (if idle then counted self.old.data_idles else self.old.data_idles);
        } }
    {
        if idle {
            self.data_idles = self.data_idles.saturating_add(1);
        }
    }
}

impl<R: Net> TcpDialer<R> {
    // A link to this address.
    fn reach_address(&self, to: Address) -> io::Result<Link<R::Stream>>
        ensures to { IfOk result (λ link. link.from.to ≡ to) }
        ensures new { IfOk result (IsNewLink self.now.waits) }
    {
        if let Some(activity) = &self.activity {
            activity.probe_client();
        }
        open(&self.net, self.alloc, to, self.waits, &self.activity)
    }

    // A link to this port of the first address of the name that answers.
    fn reach_any(&self, name: &[u8], port: u16) -> Option<Link<R::Stream>>
        requires { can_be_looked_up name.now ≡ true }
        ensures port { IfSome result (λ link. link.from.to.port ≡ port) }
        ensures new { IfSome result (IsNewLink self.now.waits) }
    {
        for found in look_up(&self.net, name, port).ok()? {
            let SocketAddr::V4(at) = found else {
                continue;
            };
            let host = at.ip().octets();
            if let Ok(link) = self.reach_address(Address { host, port }) {
                return Some(link);
            }
        }
        None
    }

    // A link to this port of the host of this name. A name that a resolver could take for an address is refused.
    fn reach_name(&self, name: &HostName, port: u16) -> Option<Link<R::Stream>>
        ensures leads { IfSome result (λ link. LeadsToHost (Name name.now) port link.from.to) }
        ensures new { IfSome result (IsNewLink self.now.waits) }
    {
        let name = without_last_period(name.text());
        if !can_be_looked_up(name) {
            return None;
        }
        self.reach_any(name, port)
    }

    fn reach(&self, dest: &Dest) -> Option<Link<R::Stream>>
        ensures leads { IfSome result (λ link. LeadsTo dest.now link.from.to) }
        ensures new { IfSome result (IsNewLink self.now.waits) }
    {
        let port = dest.port;
        match &dest.host {
            Host::Addr(host) => self.reach_address(Address { host: *host, port }).ok(),
            Host::Name(name) => self.reach_name(name, port),
        }
    }

    /// The two ends of a link to a server, which waits as the dialer's links do. It is reached as a destination is, and not
    /// counted. Where it doesn't come up, each call of the ends fails.
    pub fn reach_server(&self, dest: &Dest) -> (RemoteSource<R::Stream>, RemoteSink<R::Stream>)
        ensures source { remote_source_view result.0 ≡ untold_source 0 0 0 self.now.waits 0 Own }
        ensures sink { remote_sink_view result.1 ≡ untold_sink 0 Own }
        ensures leads { IfUpLeadsTo dest.now result.0 }
    {
        match self.reach(dest) {
            Some(Link { from, to }) => (RemoteSource::Up(from), RemoteSink::Up(to)),
            None => (
                RemoteSource::Down {
                    faults: 0,
                    waits: self.waits,
                },
                RemoteSink::Down { faults: 0 },
            ),
        }
    }

    fn reach_back(&self, host: [u8; 4], port: u16) -> Option<Link<R::Stream>>
        ensures leads { IfSome result (λ link. link.from.to ≡ record { host = host; port = port }) }
        ensures new { IfSome result (IsNewLink self.now.waits) }
    {
        self.reach_address(Address { host, port }).ok()
    }

    // A door for the client, at our end's address.
    fn open_at(&self, hosts: ClientHosts) -> Option<(TcpDoor<R::Listener>, [u8; 4], u16)>
        ensures { IfSome result (λ opened. hosts ≡ record { here = opened.1; there = opened.0.client }) }
    {
        let Opened { door, port } = open_door(&self.net, hosts, self.ports)?;
        let here = hosts.here;
        Some((door, here, port))
    }

    fn open_for_client(&self) -> Option<(TcpDoor<R::Listener>, [u8; 4], u16)>
        ensures { IfSome result (λ opened. self.now.hosts ≡ Some (record { here = opened.1; there = opened.0.client })) }
    {
        match self.hosts {
            Some(hosts) => self.open_at(hosts),
            None => None,
        }
    }
}

impl<R: Net + Clock> TcpDialer<R> {
    // A link over the connection of the door's client.
    fn reach_at(&self, door: &TcpDoor<R::Listener>) -> Option<Link<R::Stream>>
        ensures client { IfSome result (λ link. link.from.to.host ≡ door.now.client) }
        ensures new { IfSome result (IsNewLink self.now.waits) }
    {
        let connected = wait_at(&self.net, door, coming(self.waits), &self.activity)?;
        link_over(self.alloc, connected, self.waits, &self.activity).ok()
    }
}

impl<R: Net + Clock + Drop> Dialer for TcpDialer<R>
where
    R::Stream: Send,
{
    type In = LinkSource<R::Stream>;

    type Out = LinkSink<R::Stream>;

    type DataIn = LinkSource<R::Stream>;

    type DataOut = LinkSink<R::Stream>;

    type Door = TcpDoor<R::Listener>;

    ghost dialer_view = { tcp_dialer_view };

    fn dial(&mut self, dest: &Dest) -> Dialed<LinkSource<R::Stream>, LinkSink<R::Stream>>
        ensures up { IfUp result (λ from to. ComesUp (Main dest.now)
            (untold_source from.amount from.faults from.idles from.waits from.waited from.mark)
            (untold_sink to.faults to.mark)
            (tcp_dialer_view self.old) (tcp_dialer_view self.new)) }
        ensures refused { IfRefused result (Refuses (Main dest.now) (tcp_dialer_view self.old) (tcp_dialer_view self.new)) }
        ensures leads { IfUp result (λ from to. LeadsTo dest.now from.to) }
        ensures ahead { IfUp result (λ from to. ReadsAhead from.socket) }
    {
        match self.reach(dest) {
            Some(Link { mut from, mut to }) => {
                from.mark_as(Mark::Main);
                to.mark_as(Mark::Main);
                self.count_up();
                Dialed::Up(from, to)
            }
            None => {
                self.refuse();
                Dialed::Refused
            }
        }
    }

    fn side(&mut self, dest: &Dest) -> Dialed<LinkSource<R::Stream>, LinkSink<R::Stream>>
        ensures up { IfUp result (λ from to. ComesUp (Side dest.now)
            (untold_source from.amount from.faults from.idles from.waits from.waited from.mark)
            (untold_sink to.faults to.mark)
            (tcp_dialer_view self.old) (tcp_dialer_view self.new)) }
        ensures refused { IfRefused result (Refuses (Side dest.now) (tcp_dialer_view self.old) (tcp_dialer_view self.new)) }
        ensures leads { IfUp result (λ from to. LeadsTo dest.now from.to) }
        ensures ahead { IfUp result (λ from to. ReadsAhead from.socket) }
    {
        match self.reach(dest) {
            Some(Link { mut from, mut to }) => {
                from.mark_as(Mark::Side);
                to.mark_as(Mark::Side);
                self.count_up();
                Dialed::Up(from, to)
            }
            None => {
                self.refuse();
                Dialed::Refused
            }
        }
    }

    fn back(
        &mut self,
        addr: [u8; 4],
        port: u16,
    ) -> Dialed<LinkSource<R::Stream>, LinkSink<R::Stream>>
        ensures up { IfUp result (λ from to. ComesUp (Back addr port)
            (untold_source from.amount from.faults from.idles from.waits from.waited from.mark)
            (untold_sink to.faults to.mark)
            (tcp_dialer_view self.old) (tcp_dialer_view self.new)) }
        ensures refused { IfRefused result (Refuses (Back addr port) (tcp_dialer_view self.old) (tcp_dialer_view self.new)) }
        ensures leads { IfUp result (λ from to. from.to ≡ record { host = addr; port = port }) }
        ensures ahead { IfUp result (λ from to. ReadsAhead from.socket) }
    {
        match self.reach_back(addr, port) {
            Some(Link { mut from, mut to }) => {
                from.mark_as(Mark::Back);
                to.mark_as(Mark::Back);
                self.count_up();
                Dialed::Up(from, to)
            }
            None => {
                self.refuse();
                Dialed::Refused
            }
        }
    }

    /// The door is at the address at which the client came in, and for that client alone.
    fn door(&mut self) -> Option<(TcpDoor<R::Listener>, [u8; 4], u16)>
        ensures opens { IfSome result (λ opened. Opens opened.1 opened.2 (tcp_dialer_view self.old) (tcp_dialer_view self.new)) }
        ensures refused { IfNone result (Refuses (Door None) (tcp_dialer_view self.old) (tcp_dialer_view self.new)) }
        ensures client { IfSome result (λ opened. self.old.hosts ≡
            Some (record { here = opened.1; there = opened.0.client })) }
        ensures hosts { self.new.hosts ≡ self.old.hosts }
    {
        match self.open_for_client() {
            Some(opened) => Some(opened),
            None => {
                self.refuse();
                None
            }
        }
    }

    /// Waits as long as a link waits, and 60 seconds at most. A connection from any address but the client's is closed.
    fn accept(
        &mut self,
        door: &mut TcpDoor<R::Listener>,
    ) -> Dialed<LinkSource<R::Stream>, LinkSink<R::Stream>>
        ensures up { IfUp result (λ from to. Accepts
            (untold_source from.amount from.faults from.idles from.waits from.waited from.mark)
            (untold_sink to.faults to.mark)
            (tcp_dialer_view self.old) (tcp_dialer_view self.new)) }
        ensures refused { IfRefused result (TurnsAway (tcp_dialer_view self.old) (tcp_dialer_view self.new)) }
        ensures client { IfUp result (λ from to. from.to.host ≡ door.old.client) }
        ensures ahead { IfUp result (λ from to. ReadsAhead from.socket) }
        ensures door { door.new ≡ door.old }
    {
        match self.reach_at(door) {
            Some(Link { mut from, mut to }) => {
                from.mark_as(Mark::Door);
                to.mark_as(Mark::Door);
                self.count_up();
                Dialed::Up(from, to)
            }
            None => {
                self.refuse();
                Dialed::Refused
            }
        }
    }

    fn hang_up(&mut self, from: LinkSource<R::Stream>, to: LinkSink<R::Stream>)
        ensures { HangsUp
            (untold_source from.amount from.faults from.idles from.waits from.waited from.mark)
            (untold_sink to.faults to.mark)
            (tcp_dialer_view self.old) (tcp_dialer_view self.new) }
    {
        self.count_fault(has_broken(&from, &to));
        self.count_idle(from.idles() > 0);
    }

    fn let_go(&mut self, from: LinkSource<R::Stream>, to: LinkSink<R::Stream>)
        ensures { LetsGo
            (untold_source from.amount from.faults from.idles from.waits from.waited from.mark)
            (untold_sink to.faults to.mark)
            (tcp_dialer_view self.old) (tcp_dialer_view self.new) }
    {
        self.count_data_fault(has_broken(&from, &to));
        self.count_data_idle(from.idles() > 0);
    }

    /// A link takes as long to come up, and 60 seconds at most, for each address that is tried.
    fn patience(&mut self, seconds: u32) {
        self.waits = seconds;
    }
}
