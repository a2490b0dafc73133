//! The two sessions, over devices in memory.
ghost use Rattle.std.specs.Prelude.{[], None, false};

use crate::devices::devices_of;
use crate::relay::Relay;
use crate::telling::tell_after;
use crate::through::PutThrough;
use auth_events::{AuthPort, PortFault, Reply, Request};
use fw_memory::{MemClock, MemDice};
use fw_outside::{Dialer, Sink, Source};
use fw_types::{Dest, Ending, Host, NoMemory};
use lines_of_rows::Told;
use session_acts::{Form, relayed_over, session_over};
use std::alloc::Global;
use std::thread::Threads;

/// A port whose link is down.
#[derive(Drop)]
struct Down {
    asks: u64,
    faults: u64,
}

impl AuthPort for Down {
    type Origin = u8;

    ghost port = { λ down. record {
      seen = [];
      mine = [];
      full = None;
      refused = false;
      asks = down.asks;
      faults = down.faults;
      odd = 0;
      origin = 7;
      home = [];
    } };

    fn ask(&mut self, _sid: u64, _at: u64, _request: Request) -> Result<Reply, PortFault> {
        self.asks = self.asks.saturating_add(1);
        self.faults = self.faults.saturating_add(1);
        Err(PortFault::Link)
    }
}

// Runs the session that passes lines. What the devices come to is seen in what they were given, and no clause says it here.
fn hold<S: Source, K: Sink, G: Sink, D: Dialer>(
    alloc: Global,
    from: &mut S,
    to: &mut K,
    logs: &mut G,
    dialer: &mut D,
) -> Ending {
    let relay = Relay {
        dest: Dest {
            host: Host::Addr([10, 0, 0, 5]),
            port: 7,
        },
    };
    let mut port = Down { asks: 0, faults: 0 };
    let mut clock = MemClock::new(Vec::new(alloc));
    let mut dice = MemDice::new(0);
    session_over(
        &relay, &mut port, from, to, logs, dialer, &mut clock, &mut dice,
    )
}

/// `pass FAILS|CLIENT|SERVER`: the session that passes lines.
pub(crate) fn run(alloc: Global, asked: &[u8], out: &mut Told) -> Result<(), NoMemory> {
    let mut devices = devices_of(alloc, asked)?;
    let ending = hold(
        alloc,
        &mut devices.from,
        &mut devices.to,
        &mut devices.logs,
        &mut devices.dialer,
    );
    tell_after(&devices, ending, out);
    Ok(())
}

// Runs the session that puts its client through.
fn put_through<H: Threads + Sync, S: Source + Send, K: Sink + Send, G: Sink, D: Dialer>(
    rt: &H,
    alloc: Global,
    form: Form,
    from: &mut S,
    to: &mut K,
    logs: &mut G,
    dialer: &mut D,
) -> Ending {
    let through = PutThrough {
        dest: Dest {
            host: Host::Addr([10, 0, 0, 5]),
            port: 7,
        },
        form,
    };
    let mut port = Down { asks: 0, faults: 0 };
    let mut clock = MemClock::new(Vec::new(alloc));
    let mut dice = MemDice::new(0);
    relayed_over(
        rt, &through, &mut port, from, to, logs, dialer, &mut clock, &mut dice,
    )
}

/// `through FAILS|CLIENT|SERVER`, and `telnet` likewise: the session that hears its client in this form and puts it through.
pub(crate) fn run_through<H: Threads + Sync>(
    rt: &H,
    alloc: Global,
    form: Form,
    asked: &[u8],
    out: &mut Told,
) -> Result<(), NoMemory> {
    let mut devices = devices_of(alloc, asked)?;
    let ending = put_through(
        rt,
        alloc,
        form,
        &mut devices.from,
        &mut devices.to,
        &mut devices.logs,
        &mut devices.dialer,
    );
    tell_after(&devices, ending, out);
    Ok(())
}
