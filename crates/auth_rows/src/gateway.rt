//! A session of the Telnet gateway of a scene.
ghost use Rattle.std.specs.Prelude.{All, IfOk};
ghost use Rattle.fw_memory.specs.MemDialerView.{IsNewLink};

use crate::fault::{Fault, Line, check};
use crate::stage::Stage;
use crate::talk::{Break, Device, add_line, both, name_of, set_call, set_calls, wanted};
use arrayvec::ArrayVec;
use fw_memory::{Calls, MemClock, MemDialer, MemSink, MemSource};
use fw_outside::Ask;
use fw_types::{Dest, Ending, Host, NoMemory, Octets, Peer};
use lines_of_rows::{Told, add, add_number, cut_word, number_of, numbers_of};
use std::alloc::Global;
use std::thread::Threads;

/// The devices of a session of the gateway.
#[derive(Drop)]
pub(crate) struct Devices {
    pub(crate) from: MemSource,
    pub(crate) to: MemSink,
    pub(crate) logs: MemSink,
    pub(crate) dialer: MemDialer,
    pub(crate) clock: MemClock,
}

/// What a session is given, and what comes of it.
#[derive(Drop)]
pub(crate) struct Gateway {
    // Who the client is, and the number of the line that permits it.
    client: Vec<u8>,
    clock: Vec<u64>,
    said: Vec<u8>,
    told: Vec<u8>,
    logged: Vec<u8>,
    // Whether the first dial may bring a link up, what its server says, and what it is passed.
    linked: bool,
    server: Vec<u8>,
    passed: Vec<u8>,
    dialed: Vec<u8>,
    source: Calls,
    idle: Calls,
    sink: Calls,
    sink_room: u64,
    log_room: u64,
}

// A link to a server that says this.
fn link(alloc: Global, bytes: &[u8]) -> Result<(MemSource, MemSink), NoMemory>
    ensures { IfOk result IsNewLink }
{
    let bytes = Octets::copy(alloc, bytes)?;
    let to = MemSink::new(alloc, 4096, Calls::none())?;
    Ok((MemSource::new(bytes, 7, Calls::none(), Calls::none()), to))
}

fn alone(alloc: Global, link: (MemSource, MemSink)) -> Result<Vec<(MemSource, MemSink)>, NoMemory>
    requires { IsNewLink link }
    ensures { IfOk result (λ links. All IsNewLink links.items) }
{
    let mut links = Vec::new(alloc);
    links.push(link)?;
    Ok(links)
}

fn no_links(alloc: Global) -> Vec<(MemSource, MemSink)>
    ensures { All IsNewLink result.items }
{
    Vec::new(alloc)
}

// A dialer with one link, or with none.
fn dialer(alloc: Global, linked: bool, server: &[u8]) -> Result<MemDialer, NoMemory> {
    if linked {
        let links = alone(alloc, link(alloc, server)?)?;
        return MemDialer::new(alloc, links, Vec::new(alloc), 16, Calls::none());
    }
    MemDialer::new(alloc, no_links(alloc), Vec::new(alloc), 16, Calls::none())
}

fn add_dest(out: &mut Told, dest: &Dest) {
    let mut host = ArrayVec::new();
    dest.host.write(&mut host);
    add(out, host.as_slice());
    add_number(out, u64::from(dest.port));
    add(out, b"\n");
}

// The destinations that were asked for, a line each.
fn dials(asked: &[Ask]) -> Told {
    let mut told = Told::new();
    for ask in asked {
        if let Ask::Main(dest) = ask {
            add_dest(&mut told, dest);
        }
    }
    told
}

// What the server of the link that was hung up was given.
fn passed(ended: &[(MemSource, MemSink)]) -> &[u8] {
    match ended {
        [first, ..] => first.1.bytes(),
        [] => b"",
    }
}

// Compares what a device was given with what the scene says: the same, or a front of it where a device broke.
fn same(line: &Line<'_>, wanted: &[u8], bytes: &[u8], broken: bool) -> Result<(), Fault> {
    if broken {
        return check(line, wanted.starts_with(bytes), bytes);
    }
    check(line, wanted == bytes, bytes)
}

fn peer_of(text: &[u8]) -> Option<Peer> {
    match Host::read(text) {
        Some(Host::Addr(addr)) => Some(Peer {
            addr: Some(addr),
            name: None,
        }),
        _ => None,
    }
}

impl Gateway {
    /// A session that isn't told of yet, of this client.
    pub(crate) fn new(alloc: Global, client: Vec<u8>) -> Gateway {
        Gateway {
            client,
            clock: Vec::new(alloc),
            said: Vec::new(alloc),
            told: Vec::new(alloc),
            logged: Vec::new(alloc),
            linked: false,
            server: Vec::new(alloc),
            passed: Vec::new(alloc),
            dialed: Vec::new(alloc),
            source: Calls::none(),
            idle: Calls::none(),
            sink: Calls::none(),
            sink_room: 4096,
            log_room: 4096,
        }
    }

    fn take_server(&mut self, text: &[u8]) -> Result<(), NoMemory> {
        self.linked = true;
        self.server.extend_from_slice(text)?;
        Ok(())
    }

    // Takes in how the devices are.
    fn take_device(&mut self, alloc: Global, word: &str, text: &[u8]) -> Result<(), NoMemory> {
        match word {
            "clock" => {
                self.clock = numbers_of(alloc, text)?;
                Ok(())
            }
            "source" => set_calls(alloc, &mut self.source, text),
            "idle" => set_calls(alloc, &mut self.idle, text),
            "sink" => set_calls(alloc, &mut self.sink, text),
            _ => {
                self.take_room(word, text);
                Ok(())
            }
        }
    }

    // Takes in how much room they have.
    fn take_room(&mut self, word: &str, text: &[u8]) {
        match word {
            "sink-room" => self.sink_room = number_of(text),
            "log-room" => self.log_room = number_of(text),
            _ => {}
        }
    }

    /// Takes a line in.
    pub(crate) fn take(&mut self, alloc: Global, word: &str, text: &[u8]) -> Result<(), NoMemory> {
        match word {
            "client" => add_line(&mut self.said, text, b"\r\n"),
            "says" => add_line(&mut self.said, text, b""),
            "given" => add_line(&mut self.told, text, b"\r\n"),
            "told" => add_line(&mut self.told, text, b""),
            "log" => add_line(&mut self.logged, text, b"\n"),
            "server" => self.take_server(text),
            "passed" => add_line(&mut self.passed, text, b""),
            "dials" => add_line(&mut self.dialed, text, b"\n"),
            _ => self.take_device(alloc, word, text),
        }
    }

    // Lets a device fail.
    fn break_at(&mut self, alloc: Global, at: Break) -> Result<(), NoMemory> {
        match at.device {
            Device::Source => set_call(alloc, &mut self.source, at.call),
            Device::Idle => set_call(alloc, &mut self.idle, at.call),
            Device::Sink => set_call(alloc, &mut self.sink, at.call),
            Device::Port => Ok(()),
        }
    }

    // What the client says comes in one take, or byte by byte if a device is to break.
    fn source(&self, alloc: Global, broken: bool) -> Result<MemSource, NoMemory> {
        let source = self.source.copy(alloc)?;
        let idle = self.idle.copy(alloc)?;
        let said = Octets::copy(alloc, &self.said)?;
        let piece = if broken { 1 } else { 4096 };
        Ok(MemSource::new(said, piece, source, idle))
    }

    fn sink(&self, alloc: Global) -> Result<MemSink, NoMemory> {
        let fails = self.sink.copy(alloc)?;
        MemSink::new(alloc, self.sink_room.min(4096) as usize, fails)
    }

    fn logs(&self, alloc: Global) -> Result<MemSink, NoMemory> {
        MemSink::new(alloc, self.log_room.min(4096) as usize, Calls::none())
    }

    fn clock(&self, alloc: Global) -> Result<MemClock, NoMemory> {
        let moments = Vec::from_slice(alloc, &self.clock)?;
        Ok(MemClock::new(moments))
    }

    fn devices(&self, alloc: Global, broken: bool) -> Result<Devices, NoMemory> {
        let clock = self.clock(alloc)?;
        let talk = both(self.source(alloc, broken), self.sink(alloc));
        let others = both(self.logs(alloc), dialer(alloc, self.linked, &self.server));
        let ((from, to), (logs, dialer)) = both(talk, others)?;
        Ok(Devices {
            from,
            to,
            logs,
            dialer,
            clock,
        })
    }

    // Compares what each device was given with what the scene says.
    fn compare(&self, line: &Line<'_>, devices: &Devices, broken: bool) -> Result<(), Fault> {
        same(line, &self.told, devices.to.bytes(), broken)?;
        same(line, &self.logged, devices.logs.bytes(), broken)?;
        same(
            line,
            &self.dialed,
            dials(devices.dialer.asked()).as_slice(),
            broken,
        )?;
        same(line, &self.passed, passed(devices.dialer.ended()), broken)
    }

    // Compares how the session ended with what the line says, or with what the break says.
    fn compare_ending(
        &self,
        alloc: Global,
        line: &Line<'_>,
        ending: &[u8],
        broken: Option<Break>,
    ) -> Result<(), Fault> {
        let says = line.rest(alloc)?;
        check(line, ending == wanted(&says, broken), ending)
    }

    // Holds the session over these devices.
    fn hold_over<H: Threads + Sync>(
        &self,
        rt: &H,
        line: &Line<'_>,
        stage: &mut Stage,
        devices: &mut Devices,
    ) -> Result<Ending, Fault> {
        let (address, number) = cut_word(&self.client);
        let Some(peer) = peer_of(address) else {
            return Err(line.differs(b"no peer"));
        };
        match stage.put_through(rt, number_of(number), &peer, devices) {
            Some(ending) => Ok(ending),
            None => Err(line.differs(b"no line that permits")),
        }
    }

    // Holds the session over these devices, and compares.
    fn compare_held<H: Threads + Sync>(
        &self,
        rt: &H,
        alloc: Global,
        line: &Line<'_>,
        stage: &mut Stage,
        broken: Option<Break>,
        devices: &mut Devices,
    ) -> Result<(), Fault> {
        let ending = name_of(self.hold_over(rt, line, stage, devices)?);
        self.compare_ending(alloc, line, ending, broken)?;
        self.compare(line, devices, broken.is_some())
    }

    /// Holds the session, and compares how it ends and what each was given with what the scene says, or with what the break
    /// says.
    pub(crate) fn hold<H: Threads + Sync>(
        &mut self,
        rt: &H,
        alloc: Global,
        line: &Line<'_>,
        stage: &mut Stage,
        broken: Option<Break>,
    ) -> Result<(), Fault> {
        if let Some(at) = broken {
            self.break_at(alloc, at)?;
        }
        let mut devices = self.devices(alloc, broken.is_some())?;
        let compared = self.compare_held(rt, alloc, line, stage, broken, &mut devices);
        drop(devices);
        compared
    }
}
