//! A port whose link is down.
ghost use Rattle.std.specs.Prelude.{◌≡◌, [], None, false};

use auth_events::{AuthPort, PortFault, Reply, Request};
use lines_of_rows::{Told, add, add_number};

/// A port whose link is down.
#[derive(Drop)]
struct Down {
    asks: u64,
    faults: u64,
}

impl AuthPort for Down {
    type Origin = u8;

    ghost port = { λ down. record {
      seen = [];
      mine = [];
      full = None;
      refused = false;
      asks = down.asks;
      faults = down.faults;
      odd = 0;
      origin = 7;
      home = [];
    } };

    fn ask(&mut self, _sid: u64, _at: u64, _request: Request) -> Result<Reply, PortFault> {
        self.asks = self.asks.saturating_add(1);
        self.faults = self.faults.saturating_add(1);
        Err(PortFault::Link)
    }
}

// Opens a session and closes it again.
fn visit<P: AuthPort>(port: &mut P) -> Result<(), PortFault>
    ensures origin { (P.port port.new).origin ≡ (P.port port.old).origin }
    ensures home { (P.port port.new).home ≡ (P.port port.old).home }
{
    let reply = port.ask(0, 10, Request::Open { console: false })?;
    if let Reply::Opened { sid } = reply {
        port.ask(sid, 11, Request::Close)?;
    }
    Ok(())
}

/// `port down => Link N`: what a session at a port whose link is down comes to, and how often it failed.
pub(crate) fn tell_port(out: &mut Told) {
    let mut port = Down { asks: 0, faults: 0 };
    match visit(&mut port) {
        Ok(()) => add(out, b"ok"),
        Err(PortFault::NoMemory) => add(out, b"NoMemory"),
        Err(PortFault::Link) => add(out, b"Link"),
        Err(PortFault::Strange) => add(out, b"Strange"),
    }
    add_number(out, port.faults);
}
