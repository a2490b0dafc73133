//! Who waits for clients in memory.
ghost use Rattle.std.specs.Prelude.{◌≡◌, ◌≤◌, ◌∷◌, [], ◌++◌, All, IfNone, IfOk, IfSome, false, length, true};
ghost use Rattle.acceptors.specs.AcceptorView.{Comes, Ends, Fails, HasOut, TakesBack};
ghost use Rattle.acceptors.specs.Knocks.{IfEnd, IfFailed, IfSession};
ghost use Rattle.acceptors.specs.MemAcceptorView.{AnswersNext, GivesFirst, IsNewCaller, acceptor_view_of, visit_of};
ghost use Rattle.fw_memory.specs.CallsView.{comes_at};
ghost use Rattle.fw_outside.specs.Counts.{Grew, Rose, counted};

use crate::{Acceptor, Caller, Knock};
use fw_memory::{Calls, MemClock, MemDialer, MemDice, MemSink, MemSource};
use fw_types::NoMemory;
use std::alloc::Global;
use std::collections::VecDeque;
use std::marker::Model;
use std::snapshot::Snapshot;

/// A client with devices in memory.
pub type MemCaller = Caller<MemSource, MemSink, MemSink, MemDialer, MemClock, MemDice>;

/// Hands out clients that it was given, and fails as it is told.
#[derive(Drop)]
pub struct MemAcceptor {
    callers: VecDeque<MemCaller>,
    all: Snapshot<Vec<MemCaller>>,
    fails: Calls,
    calls: u64,
    took: Vec<MemCaller>,
    over: bool,
    ends: u64,
    faults: u64,
}

impl Model for MemAcceptor {
    ghost use Rattle.std.specs.Prelude.{All};
    ghost use Rattle.std.specs.Vec.{vec_capacity};
    ghost use Rattle.acceptors.specs.MemAcceptorView.{HasPlace, IsNewCaller, MemAcceptorView, came_of};

    ghost Value = { MemAcceptorView };

    ghost view = { λ m. record {
      callers = m.callers.items;
      fails = m.fails;
      calls = m.calls;
      handed = came_of m.all.value.items m.callers.items;
      took = m.took.items;
      over = m.over;
      ends = m.ends;
      faults = m.faults;
    } };

    ghost invariant = { λ m. HasPlace m.all.value.items (record {
      callers = m.callers.items;
      fails = m.fails;
      calls = m.calls;
      handed = came_of m.all.value.items m.callers.items;
      took = m.took.items;
      over = m.over;
      ends = m.ends;
      faults = m.faults;
    }) (vec_capacity m.took) × All IsNewCaller m.callers.items };
}

// The count after one more.
fn one_more(count: u64) -> u64
    ensures grew { Grew 1 count result }
    ensures rose { Rose count result }
    ensures is { result ≡ counted count }
{
    count.saturating_add(1)
}

impl MemAcceptor {
    /// Hands out these clients, in order. Its calls of `next` are numbered from 0; those in `fails` fail. There is room to
    /// take them all back.
    pub fn new(
        alloc: Global,
        callers: Vec<MemCaller>,
        fails: Calls,
    ) -> Result<MemAcceptor, NoMemory>
        requires { All IsNewCaller callers.items }
        ensures { IfOk result (λ made. made ≡ record {
          callers = callers.items;
          fails = fails;
          calls = 0;
          handed = [];
          took = [];
          over = false;
          ends = 0;
          faults = 0;
        }) }
    {
        let took = Vec::with_capacity(alloc, callers.len())?;
        let all = Snapshot::of(&callers);
        Ok(MemAcceptor {
            callers: VecDeque::from(callers),
            all,
            fails,
            calls: 0,
            took,
            over: false,
            ends: 0,
            faults: 0,
        })
    }

    /// Those that were taken back, as they stood then.
    pub fn took(&self) -> &[MemCaller]
        ensures { result.now ≡ self.now.took }
    {
        &self.took
    }

    // One more call, which is told to fail or not.
    fn is_failing(&mut self) -> bool
        ensures answer { result ≡ comes_at self.old.fails self.old.calls }
        ensures is { self.new ≡ record self.old { calls = counted self.old.calls } }
    {
        let call = self.calls;
        self.calls = one_more(call);
        self.fails.contains(call)
    }

    fn fail(&mut self)
        ensures rose { Rose self.old.faults self.new.faults }
        ensures is { self.new ≡ record self.old { faults = counted self.old.faults } }
    {
        self.faults = one_more(self.faults);
    }

    fn end(&mut self)
        ensures grew { Grew 1 self.old.ends self.new.ends }
        ensures is { self.new ≡ record self.old { over = true; ends = counted self.old.ends } }
    {
        self.over = true;
        self.ends = one_more(self.ends);
    }

    // The next of the clients to come.
    fn pop(&mut self) -> Option<MemCaller>
        ensures is_new { IfSome result IsNewCaller }
        ensures back { length self.old.took ≤ length self.old.handed }
        ensures first { IfSome result (λ caller. GivesFirst caller self.old self.new) }
        ensures none { IfNone result ((self.old.callers ≡ []) × (self.new ≡ self.old)) }
    {
        self.callers.pop_front()
    }

    // Keeps a client. There is room for it.
    fn keep(&mut self, caller: MemCaller)
        requires { HasOut (acceptor_view_of self.old) }
        ensures { self.new ≡ record self.old { took = self.old.took ++ caller ∷ [] } }
    {
        self.took.push_reserved(caller);
    }
}

impl Acceptor for MemAcceptor {
    type From = MemSource;

    type To = MemSink;

    type Logs = MemSink;

    type Dial = MemDialer;

    type Tick = MemClock;

    type Rand = MemDice;

    ghost acceptor_view = { acceptor_view_of };

    fn next(&mut self) -> Knock<MemCaller>
        ensures session { IfSession result (λ caller. Comes (visit_of caller)
            (acceptor_view_of self.old) (acceptor_view_of self.new)) }
        ensures end { IfEnd result (Ends (acceptor_view_of self.old) (acceptor_view_of self.new)) }
        ensures failed { IfFailed result (Fails (acceptor_view_of self.old) (acceptor_view_of self.new)) }
        ensures answer { AnswersNext result self.old self.new }
    {
        if self.is_failing() {
            self.fail();
            self.end();
            return Knock::Failed;
        }
        match self.pop() {
            Some(caller) => Knock::Session(caller),
            None => {
                self.end();
                Knock::End
            }
        }
    }

    fn back(&mut self, caller: MemCaller)
        requires { HasOut (acceptor_view_of self.old) }
        ensures takes { TakesBack (visit_of caller) (acceptor_view_of self.old) (acceptor_view_of self.new) }
        ensures kept { self.new ≡ record self.old { took = self.old.took ++ caller ∷ [] } }
    {
        self.keep(caller);
    }
}
