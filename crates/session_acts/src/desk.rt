//! The devices that a session is lent, and the acts on them.
ghost use Rattle.std.specs.Prelude.{◌≡◌, ◌∷◌, [], is_some, Ok, Err};
ghost use Rattle.auth_events.specs.Port.{Port};
ghost use Rattle.fw_outside.specs.DiceView.{DiceView};
ghost use Rattle.session_acts.specs.Acts.{fault_cause};
ghost use Rattle.session_acts.specs.Link.{server_view};
ghost use Rattle.session_acts.specs.Met.{Asking, opened_then, reply_of};

use crate::causes::silence_cause;
use crate::depositing::deposit;
use crate::joining::{carry, put_pair};
use crate::link::{Link, heed, pass_text, put_up, take_line};
use crate::pair::DataPair;
use crate::replying::take_reply;
use crate::{Cause, Deposited, Form, Joined, Replied, ReplyUse, Stage, Target, Toward};
use auth_events::{AuthPort, PortFault, Reply, Request};
use fw_outside::{Clock, Dialed, Dialer, Dice, Failed, Heard, LineReader, Sink, Source};
use fw_types::{Dest, Name, OctetsList};
use relay_ways::WayEnd;
use spool_rack::MailStore;
use std::alloc::Global;

/// The devices that a session is lent. The links stand outside of it, so that whoever lends them learns what became of them.
#[derive(Drop)]
pub(crate) struct Desk<
    'p,
    's,
    'k,
    'g,
    'd,
    'l,
    'a,
    'o,
    'c,
    'r,
    'm,
    P: AuthPort,
    S: Source,
    K: Sink,
    G: Sink,
    D: Dialer,
    C: Clock,
    R: Dice,
    M: MailStore,
> {
    pub(crate) port: &'p mut P,
    pub(crate) from: &'s mut S,
    pub(crate) to: &'k mut K,
    pub(crate) logs: &'g mut G,
    pub(crate) dialer: &'d mut D,
    pub(crate) link: &'l mut Option<Link<D::In, D::Out>>,
    pub(crate) pair: &'a mut Option<DataPair<D::DataIn, D::DataOut>>,
    pub(crate) door: &'o mut Option<D::Door>,
    pub(crate) clock: &'c mut C,
    pub(crate) dice: &'r mut R,
    pub(crate) store: &'m mut M,
    pub(crate) reader: LineReader,
    pub(crate) opened: Option<u64>,
    pub(crate) relays: bool,
}

fn fault_cause(fault: PortFault) -> Cause
    ensures { result ≡ fault_cause fault }
{
    match fault {
        PortFault::NoMemory => Cause::NoMemory,
        PortFault::Link | PortFault::Strange => Cause::AuthFault,
    }
}

// The session that is open after a request was asked.
fn opened_then(
    request: &Request,
    reply: &Result<Reply, PortFault>,
    opened: Option<u64>,
) -> Option<u64>
    ensures { result ≡ opened_then request.now (reply_of reply.now) opened }
{
    match request {
        Request::Open { .. } => match reply {
            Ok(Reply::Opened { sid }) => Some(*sid),
            Ok(_) => opened,
            Err(_) => opened,
        },
        Request::Close => None,
        _ => opened,
    }
}

// Asks the port, at a moment of the clock, for the session that is open, or where none is for number 2^64 - 1.
fn ask<P: AuthPort, C: Clock>(
    port: &mut P,
    clock: &mut C,
    opened: &mut Option<u64>,
    request: Request,
) -> Result<Reply, PortFault>
    ensures { (dice : DiceView) → Asking request result
        (record { port = P.port port.old; clock = C.clock_view clock.old; dice = dice; opened = opened.old })
        (record { port = P.port port.new; clock = C.clock_view clock.new; dice = dice; opened = opened.new }) }
{
    let moment = clock.now();
    let sid = opened.unwrap_or(u64::MAX);
    let reply = port.ask(sid, moment, request.twin());
    *opened = opened_then(&request, &reply, *opened);
    reply
}

impl<'p, 's, 'k, 'g, 'd, 'l, 'a, 'o, 'c, 'r, 'm, P, S, K, G, D, C, R, M> Stage
    for Desk<'p, 's, 'k, 'g, 'd, 'l, 'a, 'o, 'c, 'r, 'm, P, S, K, G, D, C, R, M>
where
    P: AuthPort,
    S: Source,
    K: Sink,
    G: Sink,
    D: Dialer,
    C: Clock,
    R: Dice,
    M: MailStore,
{
    type Origin = P::Origin;

    ghost world = { λ d. record {
      client = record { inlet = S.source_view d.from.now; reader = d.reader; outlet = K.sink_view d.to.now };
      logs = G.sink_view d.logs.now;
      office = record { port = P.port d.port.now; clock = C.clock_view d.clock.now; dice = R.dice_view d.dice.now; opened = d.opened };
      server = server_view D.In.source_view D.Out.sink_view D.DataIn.source_view D.DataOut.sink_view (D.dialer_view d.dialer.now) d.link.now d.pair.now d.door.now;
      store = M.store_view d.store.now;
      names = record { devices = d.port.ghost_name ∷ d.from.ghost_name ∷ d.to.ghost_name ∷ d.logs.ghost_name ∷ d.dialer.ghost_name ∷ d.link.ghost_name ∷ d.pair.ghost_name ∷ d.door.ghost_name ∷ d.clock.ghost_name ∷ d.dice.ghost_name ∷ d.store.ghost_name ∷ []; relays = d.relays };
    } };

    fn is_open(&self) -> bool {
        self.opened.is_some()
    }

    fn is_linked(&self) -> bool {
        self.link.is_some()
    }

    fn hear(&mut self, form: Form) -> Result<Heard, Cause> {
        match heed(form, &mut self.reader, self.from) {
            Ok(heard) => Ok(heard),
            Err(silence) => Err(silence_cause(Cause::ClientFault, silence)),
        }
    }

    fn say(&mut self, text: &[u8]) -> Result<(), Cause> {
        match self.to.give(text) {
            Ok(()) => Ok(()),
            Err(_) => Err(Cause::ClientFault),
        }
    }

    fn attempt(&mut self, text: &[u8]) {
        let _ = self.to.give(text);
    }

    fn log(&mut self, text: &[u8]) -> Result<(), Cause> {
        match self.logs.give(text) {
            Ok(()) => Ok(()),
            Err(_) => Err(Cause::LogFault),
        }
    }

    fn jot(&mut self, text: &[u8]) {
        let _ = self.logs.give(text);
    }

    fn ask(&mut self, request: Request) -> Result<Reply, Cause> {
        match ask(self.port, self.clock, &mut self.opened, request) {
            Ok(reply) => Ok(reply),
            Err(fault) => Err(fault_cause(fault)),
        }
    }

    fn renew(&mut self, name: Name, hash: [u8; 16]) -> Result<([u8; 8], Reply), Cause> {
        let salt = self.dice.salt();
        match ask(
            self.port,
            self.clock,
            &mut self.opened,
            Request::Password { name, salt, hash },
        ) {
            Ok(reply) => Ok((salt, reply)),
            Err(fault) => Err(fault_cause(fault)),
        }
    }

    fn dial(&mut self, dest: &Dest) -> bool {
        self.hang_up();
        put_up(self.link, self.dialer.dial(dest))
    }

    fn reach(&mut self, dest: &Dest) -> Result<(), Cause> {
        if !self.dial(dest) {
            return Err(Cause::NoRoute);
        }
        Ok(())
    }

    fn take(&mut self) -> Result<Heard, Cause> {
        match take_line(self.link) {
            Ok(heard) => Ok(heard),
            Err(silence) => Err(silence_cause(Cause::ServerFault, silence)),
        }
    }

    fn pass(&mut self, text: &[u8]) -> Result<(), Cause> {
        match pass_text(self.link, text) {
            Ok(()) => Ok(()),
            Err(_) => Err(Cause::ServerFault),
        }
    }

    fn hang_up(&mut self) {
        self.part();
        *self.door = None;
        if let Some(up) = self.link.take() {
            self.dialer.hang_up(up.from, up.to);
        }
    }

    fn deposit(
        &mut self,
        alloc: Global,
        sender: &[u8],
        rcpts: &OctetsList,
        words: &[u8],
        most: u32,
    ) -> Result<Deposited, Cause> {
        deposit(
            &mut self.reader,
            self.from,
            self.to,
            self.store,
            alloc,
            sender,
            rcpts,
            words,
            most,
        )
    }

    fn take_reply(&mut self, how: ReplyUse) -> Result<Replied, Cause> {
        take_reply(how, self.link, self.to)
    }

    fn open_door(&mut self) -> Option<([u8; 4], u16)> {
        let (door, addr, port) = self.dialer.door()?;
        let place = addr;
        *self.door = Some(door);
        Some((place, port))
    }

    fn join(&mut self, dest: &Dest, target: Target) -> Joined {
        self.part();
        if !self.is_linked() {
            return Joined::Unready;
        }
        match target {
            Target::Addr { addr, port } => match self.dialer.side(dest) {
                Dialed::Refused => Joined::NoSide,
                Dialed::Up(far_from, far_to) => match self.dialer.back(addr, port) {
                    Dialed::Refused => {
                        self.dialer.let_go(far_from, far_to);
                        Joined::NoNear
                    }
                    Dialed::Up(from, to) => {
                        put_pair(self.pair, far_from, far_to, from, to);
                        Joined::Up
                    }
                },
            },
            Target::AtDoor => match self.door.take() {
                None => Joined::Unready,
                Some(mut door) => match self.dialer.side(dest) {
                    Dialed::Refused => Joined::NoSide,
                    Dialed::Up(far_from, far_to) => match self.dialer.accept(&mut door) {
                        Dialed::Refused => {
                            self.dialer.let_go(far_from, far_to);
                            Joined::NoNear
                        }
                        Dialed::Up(from, to) => {
                            put_pair(self.pair, far_from, far_to, from, to);
                            Joined::Up
                        }
                    },
                },
            },
        }
    }

    fn copy(&mut self, toward: Toward) -> Option<WayEnd> {
        let Some(mut both) = self.pair.take() else {
            return None;
        };
        let end = carry(toward, &mut both);
        self.dialer.let_go(both.far_from, both.far_to);
        self.dialer.let_go(both.near_from, both.near_to);
        Some(end)
    }

    fn part(&mut self) {
        if let Some(up) = self.pair.take() {
            self.dialer.let_go(up.far_from, up.far_to);
            self.dialer.let_go(up.near_from, up.near_to);
        }
    }

    fn allot(&mut self, lacks: bool) -> Result<(), Cause> {
        if lacks {
            return Err(Cause::NoMemory);
        }
        Ok(())
    }
}
