//! Who waits for the clients of a server.
ghost use Rattle.acceptors.specs.AcceptorView.{AcceptorView, Comes, Ends, Fails, HasOut, TakesBack};
ghost use Rattle.acceptors.specs.Knocks.{IfEnd, IfFailed, IfSession};

use crate::caller::{Caller, Knock};
use fw_outside::{Clock, Dialer, Dice, Sink, Source};

/// A client of an acceptor, with the devices of its session.
pub type CallerOf<A> = Caller<
    <A as Acceptor>::From,
    <A as Acceptor>::To,
    <A as Acceptor>::Logs,
    <A as Acceptor>::Dial,
    <A as Acceptor>::Tick,
    <A as Acceptor>::Rand,
>;

/// Who waits for clients, and takes them back after their sessions.
pub trait Acceptor: Drop {
    /// What comes from a client.
    type From: Source + Send;

    /// What goes to a client.
    type To: Sink + Send;

    type Logs: Sink;

    type Dial: Dialer;

    type Tick: Clock;

    type Rand: Dice;

    /// The clients that came, those that were taken back, and how many they are; whether it was answered that no more come or
    /// that waiting failed; and the counts of that and of failures.
    ghost acceptor_view: { Self → AcceptorView };

    /// Waits for the next client. One that comes is of a service with sessions, and its devices are new.
    fn next(
        &mut self,
    ) -> Knock<Caller<Self::From, Self::To, Self::Logs, Self::Dial, Self::Tick, Self::Rand>>
        ensures session { IfSession result (λ caller. Comes (record {
          guest = record { service = caller.service; peer = caller.peer };
          from = Self.From.source_view caller.from;
          to = Self.To.sink_view caller.to;
          logs = Self.Logs.sink_view caller.logs;
          dialer = Self.Dial.dialer_view caller.dialer;
          clock = Self.Tick.clock_view caller.clock;
          dice = Self.Rand.dice_view caller.dice;
        }) (acceptor_view self.old) (acceptor_view self.new)) }
        ensures end { IfEnd result (Ends (acceptor_view self.old) (acceptor_view self.new)) }
        ensures failed { IfFailed result (Fails (acceptor_view self.old) (acceptor_view self.new)) };

    /// Takes a client back after its session.
    fn back(
        &mut self,
        caller: Caller<Self::From, Self::To, Self::Logs, Self::Dial, Self::Tick, Self::Rand>,
    )
        requires { HasOut (acceptor_view self.old) }
        ensures { TakesBack (record {
          guest = record { service = caller.service; peer = caller.peer };
          from = Self.From.source_view caller.from;
          to = Self.To.sink_view caller.to;
          logs = Self.Logs.sink_view caller.logs;
          dialer = Self.Dial.dialer_view caller.dialer;
          clock = Self.Tick.clock_view caller.clock;
          dice = Self.Rand.dice_view caller.dice;
        }) (acceptor_view self.old) (acceptor_view self.new) };
}
