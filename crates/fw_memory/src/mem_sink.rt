ghost use Rattle.std.specs.Prelude.{◌≡◌, ◌+◌, ◌-◌, ◌<◌, nat_le, [], ◌++◌, take, length, false, IfOk, is_ok, not};
ghost use Rattle.std.specs.Bool.{OnFalse};
ghost use Rattle.fw_outside.specs.Counts.{Rose, counted};
ghost use Rattle.fw_outside.specs.SinkView.{Gives, TellsEnd};
ghost use Rattle.fw_outside.specs.declared.mark.Mark.TheVariants.{Own};
ghost use Rattle.fw_memory.specs.CallsView.{comes_at};
ghost use Rattle.fw_memory.specs.MemSinkView.{CountsCall, sink_view_of, filled, holds_all};

use crate::Calls;
use fw_outside::{Failed, Mark, Sink};
use fw_types::NoMemory;
use std::alloc::Global;
use std::marker::Model;

/// A sink in memory with room for so many bytes, which fails at the calls that it is told and at the first byte past
/// its room.
#[derive(Drop)]
pub struct MemSink {
    given: Vec<u8>,
    shut: bool,
    room: usize,
    fails: Calls,
    calls: u64,
    faults: u64,
    mark: Mark,
}

impl Model for MemSink {
    ghost use Rattle.std.specs.Prelude.{◌≤◌, vec_len};
    ghost use Rattle.std.specs.Vec.{vec_capacity};
    ghost use Rattle.fw_memory.specs.MemSinkView.{MemSinkView};

    ghost Value = { MemSinkView };

    ghost view = { λ s. record {
      given = s.given.items;
      shut = s.shut;
      room = s.room;
      fails = s.fails;
      calls = s.calls;
      faults = s.faults;
      mark = s.mark;
    } };

    ghost invariant = { λ s. (vec_len s.given ≤ s.room) × (s.room ≤ vec_capacity s.given) };
}

impl MemSink {
    /// A sink with room for so many bytes, which is reserved. The calls of `give` and `end` are counted together, and
    /// those in `fails` fail.
    pub fn new(alloc: Global, room: usize, fails: Calls) -> Result<MemSink, NoMemory>
        ensures { IfOk result (λ sink. sink ≡ record {
          given = [];
          shut = false;
          room = room;
          fails = fails;
          calls = 0;
          faults = 0;
          mark = Own;
        }) }
    {
        let given = Vec::with_capacity(alloc, room)?;
        Ok(MemSink {
            given,
            shut: false,
            room,
            fails,
            calls: 0,
            faults: 0,
            mark: Mark::Own,
        })
    }

    /// The bytes that were given.
    pub fn bytes(&self) -> &[u8]
        ensures { result.now ≡ self.now.given }
    {
        &self.given
    }

    // Marks it as that of a link which was asked for so.
    pub(crate) fn mark_as(&mut self, mark: Mark)
        ensures { self.new ≡ record self.old { mark = mark } }
    {
        self.mark = mark;
    }

    // How often it failed.
    pub(crate) fn faults(&self) -> u64
        ensures { result ≡ self.now.faults }
    {
        self.faults
    }

    // One more call, which is told to fail or not.
    fn is_failing(&mut self) -> bool
        ensures answer { result ≡ comes_at self.old.fails self.old.calls }
        ensures is { self.new ≡ record self.old { calls = counted self.old.calls } }
    {
        let call = self.calls;
        self.calls = call.saturating_add(1);
        self.fails.contains(call)
    }

    fn fail(&mut self) -> Failed
        ensures rose { Rose self.old.faults self.new.faults }
        ensures is { self.new ≡ record self.old { faults = counted self.old.faults } }
    {
        self.faults = self.faults.saturating_add(1);
        Failed
    }

    // Keeps as much of the piece as there is room for, and says whether that is all.
    fn keep(&mut self, piece: &[u8]) -> bool
        ensures answer { result ≡ nat_le (length self.old.given + length piece.now) self.old.room }
        ensures short { OnFalse result (self.old.room - length self.old.given < length piece.now) }
        ensures is { self.new ≡ record self.old {
          given =
              self.old.given ++ take (self.old.room - length self.old.given) piece.now;
        } }
    {
        let space = self.room - self.given.len();
        let count = space.min(piece.len());
        if self.given.extend_from_slice(&piece[..count]).is_err() {
            unreachable!();
        }
        piece.len() <= space
    }
}

impl Sink for MemSink {
    ghost sink_view = { sink_view_of };

    fn give(&mut self, piece: &[u8]) -> Result<(), Failed>
        ensures gives { Gives result piece.now (sink_view_of self.old) (sink_view_of self.new) }
        ensures answer { is_ok result ≡ holds_all self.old piece.now }
        ensures filled { self.new.given ≡ filled self.old piece.now }
        ensures once { CountsCall self.old self.new }
    {
        if self.is_failing() {
            return Err(self.fail());
        }
        if !self.keep(piece) {
            return Err(self.fail());
        }
        Ok(())
    }

    fn end(&mut self) -> Result<(), Failed>
        ensures ends { TellsEnd result (sink_view_of self.old) (sink_view_of self.new) }
        ensures answer { is_ok result ≡ not (comes_at self.old.fails self.old.calls) }
        ensures once { CountsCall self.old self.new }
    {
        if self.is_failing() {
            return Err(self.fail());
        }
        self.shut = true;
        Ok(())
    }
}
