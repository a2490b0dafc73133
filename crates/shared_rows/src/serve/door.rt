//! A door at which one client comes.
ghost use Rattle.std.specs.Prelude.{IfOk};
ghost use Rattle.acceptors.specs.AcceptorView.{Comes, Ends, Fails, HasSessions, IsFresh, TakesBack};
ghost use Rattle.acceptors.specs.Knocks.{IfEnd, IfFailed, IfSession};
ghost use Rattle.fw_memory.specs.MemClockView.{clock_view_of};
ghost use Rattle.fw_memory.specs.MemDialerView.{dialer_view_of};
ghost use Rattle.fw_memory.specs.MemDiceView.{dice_view_of};
ghost use Rattle.fw_memory.specs.MemSinkView.{sink_view_of};
ghost use Rattle.fw_outside.specs.Counts.{Grew, Rose};
ghost use Rattle.fwtk_serve.specs.Sessions.{visit_with};
ghost use Rattle.shared_rows.specs.Clients.{silent, untold};

use crate::serve::devices::{Marked, Marks, Script, Scripted};
use acceptors::{Acceptor, Caller, Knock};
use fw_memory::{Calls, MemClock, MemDialer, MemDice, MemSink};
use fw_types::{NoMemory, Peer};
use gate_rules::Service;
use std::alloc::Global;
use std::sync::Wait;
use std::sync::atomic::AtomicU64;

/// Which service a client asks.
#[derive(Clone, Copy)]
pub(crate) enum Asked {
    Telnet,
    Auth,
    Mail,
}

type Client<'a, H> = Caller<Scripted<'a, H>, Marked<'a>, MemSink, MemDialer, MemClock, MemDice>;

/// Hands out one client, and keeps it afterwards. It doesn't tell of it.
#[derive(Drop)]
pub(crate) struct Door<'a, H> {
    rt: &'a H,
    alloc: Global,
    told: &'a AtomicU64,
    asked: Asked,
    script: Script,
    marks: Marks,
    waits: bool,
    kept: Option<Client<'a, H>>,
    came: u64,
    returned: u64,
    over: bool,
    ends: u64,
    faults: u64,
}

// The count after one more.
fn one_more(count: u64) -> u64
    ensures { Grew 1 count result }
{
    count.saturating_add(1)
}

fn service(asked: Asked) -> Service
    ensures { HasSessions result }
{
    match asked {
        Asked::Telnet => Service::TnGw,
        Asked::Auth => Service::Authsrv,
        Asked::Mail => Service::Smap,
    }
}

// A client of this service who says this, and to whom these are marks among all that are told.
fn client<'a, H: Wait>(
    rt: &'a H,
    alloc: Global,
    service: Service,
    told: &'a AtomicU64,
    script: Script,
    marks: Marks,
) -> Result<Client<'a, H>, NoMemory>
    requires { HasSessions service }
    ensures { IfOk result (λ c. IsFresh (visit_with c.service c.peer
        (silent c.from.amount c.from.idles c.from.waits c.from.waited) (sink_view_of c.to.sink)
        (sink_view_of c.logs) (dialer_view_of c.dialer) (clock_view_of c.clock) (dice_view_of c.dice))) }
{
    let sink = MemSink::new(alloc, 1000, Calls::none())?;
    let logs = MemSink::new(alloc, 1000, Calls::none())?;
    let dialer = MemDialer::new(alloc, Vec::new(alloc), Vec::new(alloc), 0, Calls::none())?;
    Ok(Caller {
        service,
        peer: Peer {
            addr: Some([10, 0, 0, 5]),
            name: None,
        },
        from: Scripted {
            rt,
            told,
            script,
            line: 0,
            said: 0,
            amount: 0,
            idles: 0,
            waits: 3600,
            waited: 0,
        },
        to: Marked {
            sink,
            marks,
            at: 0,
            told,
        },
        logs,
        dialer,
        clock: MemClock::new(Vec::new(alloc)),
        dice: MemDice::new(0),
    })
}

// The count after a failure.
fn one_fault(count: u64) -> u64
    ensures { Rose count result }
{
    count.saturating_add(1)
}

/// A door at which a client of this service comes who says this, and to whom these are marks among all that are told.
pub(crate) fn new_door<'a, H: Wait>(
    rt: &'a H,
    alloc: Global,
    told: &'a AtomicU64,
    asked: Asked,
    script: Script,
    marks: Marks,
) -> Door<'a, H> {
    Door {
        rt,
        alloc,
        told,
        asked,
        script,
        marks,
        waits: true,
        kept: None,
        came: 0,
        returned: 0,
        over: false,
        ends: 0,
        faults: 0,
    }
}

impl<H> Door<'_, H> {
    /// What its client was told in the session.
    pub(crate) fn given(&self) -> &[u8] {
        match &self.kept {
            Some(client) => client.to.sink.bytes(),
            None => &[],
        }
    }
}

impl<'a, H: Wait + Sync> Acceptor for Door<'a, H> {
    type From = Scripted<'a, H>;

    type To = Marked<'a>;

    type Logs = MemSink;

    type Dial = MemDialer;

    type Tick = MemClock;

    type Rand = MemDice;

    ghost acceptor_view = { λ d. untold d.came d.returned d.over d.ends d.faults };

    fn next(&mut self) -> Knock<Client<'a, H>>
        ensures session { IfSession result (λ c. Comes (visit_with c.service c.peer
            (silent c.from.amount c.from.idles c.from.waits c.from.waited) (sink_view_of c.to.sink)
            (sink_view_of c.logs) (dialer_view_of c.dialer) (clock_view_of c.clock) (dice_view_of c.dice))
            (untold self.old.came self.old.returned self.old.over self.old.ends self.old.faults)
            (untold self.new.came self.new.returned self.new.over self.new.ends self.new.faults)) }
        ensures end { IfEnd result (Ends (untold self.old.came self.old.returned self.old.over self.old.ends self.old.faults)
            (untold self.new.came self.new.returned self.new.over self.new.ends self.new.faults)) }
        ensures failed { IfFailed result (Fails (untold self.old.came self.old.returned self.old.over self.old.ends self.old.faults)
            (untold self.new.came self.new.returned self.new.over self.new.ends self.new.faults)) }
    {
        if self.waits {
            self.waits = false;
            match client(
                self.rt,
                self.alloc,
                service(self.asked),
                self.told,
                self.script,
                self.marks,
            ) {
                Ok(client) => {
                    self.came = one_more(self.came);
                    return Knock::Session(client);
                }
                Err(NoMemory) => {
                    self.over = true;
                    self.ends = one_more(self.ends);
                    self.faults = one_fault(self.faults);
                    return Knock::Failed;
                }
            }
        }
        self.over = true;
        self.ends = one_more(self.ends);
        Knock::End
    }

    fn back(&mut self, client: Client<'a, H>)
        ensures takes { TakesBack (visit_with client.entry.service client.entry.peer
            (silent client.entry.from.amount client.entry.from.idles client.entry.from.waits client.entry.from.waited) (sink_view_of client.entry.to.sink)
            (sink_view_of client.entry.logs) (dialer_view_of client.entry.dialer) (clock_view_of client.entry.clock) (dice_view_of client.entry.dice))
            (untold self.old.came self.old.returned self.old.over self.old.ends self.old.faults)
            (untold self.new.came self.new.returned self.new.over self.new.ends self.new.faults) }
    {
        self.returned = one_more(self.returned);
        self.kept = Some(client);
    }
}
