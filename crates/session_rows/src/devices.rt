//! The devices of a session, in memory.
ghost use Rattle.std.specs.Prelude.{All, IfOk};
ghost use Rattle.fw_memory.specs.MemDialerView.{IsNewLink};

use fw_memory::{Calls, MemDialer, MemSink, MemSource};
use fw_types::{NoMemory, Octets};
use lines_of_rows::cut;
use std::alloc::Global;

/// The devices of a session.
#[derive(Drop)]
pub(crate) struct Devices {
    pub(crate) from: MemSource,
    pub(crate) to: MemSink,
    pub(crate) logs: MemSink,
    pub(crate) dialer: MemDialer,
}

// All calls of the device with this name, if it is the one that fails, or none.
fn calls_of(fails: &[u8], device: &[u8]) -> Calls {
    if fails == device {
        return Calls::onward(0);
    }
    Calls::none()
}

// For how many bytes a server has room.
fn room_of(fails: &[u8]) -> usize {
    if fails == b"room".as_slice() {
        return 3;
    }
    1000
}

// A link to a server that says this: `server` is its source that fails, `idle` its source from which nothing comes, and
// `room` its sink that has room for three bytes.
fn link(alloc: Global, fails: &[u8], server: &[u8]) -> Result<(MemSource, MemSink), NoMemory>
    ensures { IfOk result IsNewLink }
{
    let bytes = Octets::copy(alloc, server)?;
    let to = MemSink::new(alloc, room_of(fails), Calls::none())?;
    let breaks = calls_of(fails, b"server");
    Ok((
        MemSource::new(bytes, 7, breaks, calls_of(fails, b"idle")),
        to,
    ))
}

fn alone(alloc: Global, link: (MemSource, MemSink)) -> Result<Vec<(MemSource, MemSink)>, NoMemory>
    requires { IsNewLink link }
    ensures { IfOk result (λ links. All IsNewLink links.items) }
{
    let mut links = Vec::new(alloc);
    links.push(link)?;
    Ok(links)
}

// A dialer with one link; where `dial` fails it refuses.
fn dialer_of(alloc: Global, fails: &[u8], server: &[u8]) -> Result<MemDialer, NoMemory> {
    let link = link(alloc, fails, server)?;
    let links = alone(alloc, link)?;
    MemDialer::new(alloc, links, Vec::new(alloc), 5, calls_of(fails, b"dial"))
}

/// The devices of the session that is asked for. `client` is the client's sink that fails, `log` the log.
pub(crate) fn devices_of(alloc: Global, asked: &[u8]) -> Result<Devices, NoMemory> {
    let (fails, rest) = cut(asked, b'|');
    let (client, server) = cut(rest, b'|');
    let said = Octets::copy(alloc, client)?;
    Ok(Devices {
        from: MemSource::new(said, 3, Calls::none(), Calls::none()),
        to: MemSink::new(alloc, 1000, calls_of(fails, b"client"))?,
        logs: MemSink::new(alloc, 1000, calls_of(fails, b"log"))?,
        dialer: dialer_of(alloc, fails, server)?,
    })
}
