ghost use Rattle.std.specs.Prelude.{◌≡◌, ◌≤◌, All, [], IfErr, IfOk, IfSome, Ok, false, length};
ghost use Rattle.std.specs.Bool.{OnTrue};
ghost use Rattle.fw_types.specs.Keyed.{Ascends};
ghost use Rattle.fw_outside.specs.Counts.{Grew};
ghost use Rattle.fw_outside.specs.KeeperView.{IsCalled};
ghost use Rattle.auth_records.specs.Spelling.{HasForm};
ghost use Rattle.auth_machine.specs.Book.{Asked, CalledBy, KeeperAfter, RoseIfUnkept, Stands, edits_records, refused_by};
ghost use Rattle.auth_machine.specs.History.{CountsCalls, CountsUnkept, DecodesTo, HasRecords, IsLegal, IsSound};
ghost use Rattle.auth_machine.specs.Opening.{ReadsAs, RefusesBook};
ghost use Rattle.auth_machine.specs.MachineState.{state_of};
ghost use Rattle.auth_machine.specs.State.{record_name};

use crate::loaded::Loaded;
use crate::machine_state::MachineState;
use crate::opening::load;
use crate::room::make_room;
use crate::step::{session_of, step};
use crate::user_record::UserRecord;
use crate::{OpenFault, Policy};
use auth_events::{Denial, Entry, Reply, Request};
use fw_outside::Keeper;
use fw_types::NoMemory;
use std::alloc::Global;
use std::marker::Model;
use std::snapshot::Snapshot;

/// The records of users, the sessions, and the history of all requests with their replies.
#[derive(Drop)]
pub struct Book<K: Keeper> {
    alloc: Global,
    keeper: K,
    at_opening: Snapshot<K>,
    policy: Policy,
    state: MachineState,
    history: Vec<Entry>,
    limit: u64,
    refused: bool,
    asks: u64,
    origin: Snapshot<Loaded>,
}

impl<K: Keeper> Model for Book<K> {
    ghost use Rattle.auth_machine.specs.Book.{BookView, Stands};
    ghost use Rattle.auth_machine.specs.MachineState.{state_of};

    ghost Value = { BookView };

    ghost view = { λ b. record {
      history = b.history.items;
      limit = b.limit;
      origin = b.origin.value;
      keeper =
          K.keeper_view b.keeper;
      failed_before = (K.keeper_view b.at_opening.value).faults;
      called_before = (K.keeper_view b.at_opening.value).calls;
      refused = b.refused;
      asks = b.asks;
    } };

    ghost invariant = { λ b. Stands b.history.items b.limit b.refused b.asks b.origin.value (K.keeper_view
        b.at_opening.value) (K.keeper_view b.keeper) b.policy (state_of b.state) };
}

// The count after one more.
fn one_more(count: u64) -> u64
    ensures { Grew 1 count result }
{
    count.saturating_add(1)
}

impl<K: Keeper> Book<K> {
    // The book of these records, with an empty history.
    fn over(
        alloc: Global,
        keeper: K,
        policy: Policy,
        records: Vec<UserRecord>,
        limit: u64,
    ) -> Book<K>
        requires told { IfSome (K.keeper_view keeper).table (DecodesTo records.items) }
        requires ordered { Ascends record_name records.items }
        requires formed { All HasForm records.items }
        ensures { result ≡ record {
          history = [];
          limit = limit;
          origin = record {
            policy = policy;
            records =
                records.items;
          };
          keeper = K.keeper_view keeper;
          failed_before = (K.keeper_view keeper).faults;
          called_before = (K.keeper_view keeper).calls;
          refused = false;
          asks = 0;
        } }
    {
        let loaded = Loaded { policy, records };
        let origin = Snapshot::of(&loaded);
        let at_opening = Snapshot::of(&keeper);
        let Loaded { policy, records } = loaded;
        Book {
            alloc,
            keeper,
            at_opening,
            policy,
            state: MachineState::at_first(alloc, records),
            history: Vec::new(alloc),
            limit,
            refused: false,
            asks: 0,
            origin,
        }
    }

    /// Opens the book of all records that the keeper has, for so many requests. A keeper that has none opens too.
    ///
    /// # Errors
    ///
    /// `LoadFault` where the keeper failed, `BadRecord` with the least name under which no record with that name
    /// stands, or `NoMemory`. The keeper comes back, and has what it had; it was called once.
    pub fn open(
        alloc: Global,
        keeper: K,
        policy: Policy,
        limit: u64,
    ) -> Result<Book<K>, (K, OpenFault)>
        ensures reads { IfOk result (λ book. ReadsAs (Ok book.origin.records) (K.keeper_view keeper) book.keeper) }
        ensures sound { IfOk result (λ book. IsSound book.origin) }
        ensures encoded { IfOk result (λ book. HasRecords book.origin book.history book.keeper) }
        ensures keeper { IfOk result (λ book. IsCalled (K.keeper_view keeper) book.keeper) }
        ensures policy { IfOk result (λ book. book.origin.policy ≡ policy) }
        ensures history { IfOk result (λ book. book.history ≡ []) }
        ensures limit { IfOk result (λ book. book.limit ≡ limit) }
        ensures refused { IfOk result (λ book. book.refused ≡ false) }
        ensures asks { IfOk result (λ book. book.asks ≡ 0) }
        ensures failed_before { IfOk result (λ book. book.failed_before ≡ (K.keeper_view keeper).faults) }
        ensures called_before { IfOk result (λ book. book.called_before ≡ book.keeper.calls) }
        ensures fault { IfErr result (λ e. RefusesBook e.1 (K.keeper_view keeper) (K.keeper_view e.0)) }
    {
        let mut keeper = keeper;
        match load(alloc, &mut keeper) {
            Ok(records) => Ok(Book::over(alloc, keeper, policy, records, limit)),
            Err(fault) => Err((keeper, fault)),
        }
    }

    /// Asks this request for the session of this number, at this moment in seconds. Where as many entries are there as
    /// fit it is answered that the history is full, which takes no memory.
    pub fn ask(&mut self, sid: u64, at: u64, request: Request) -> Result<Reply, NoMemory>
        ensures asked { Asked sid at request self.old.limit self.old.origin self.old.history result self.new.history }
        ensures keeper_follows { KeeperAfter result sid at request self.old.origin self.old.history self.new.history
            self.old.keeper self.new.keeper }
        ensures keeper_called { CalledBy result (edits_records sid at request self.old.origin self.old.history)
            self.old.keeper self.new.keeper }
        ensures keeper_failed { RoseIfUnkept result self.old.keeper self.new.keeper }
        ensures refused { self.new.refused ≡ refused_by result self.old.refused }
        ensures limit { self.new.limit ≡ self.old.limit }
        ensures origin { self.new.origin ≡ self.old.origin }
        ensures failed_before { self.new.failed_before ≡ self.old.failed_before }
        ensures called_before { self.new.called_before ≡ self.old.called_before }
        ensures counted { Grew 1 self.old.asks self.new.asks }
    {
        self.asks = one_more(self.asks);
        if self.history.len() as u64 == self.limit {
            self.refused = true;
            return Ok(Reply::Denied(Denial::Full { limit: self.limit }));
        }
        make_room(&mut self.history)?;
        let place = self.history.len() as u64;
        let sid = session_of(&request, place, sid);
        let stepped = step(
            self.alloc,
            &self.policy,
            &mut self.state,
            &mut self.keeper,
            place,
            sid,
            at,
            &request,
        )?;
        let reply = stepped.reply.twin();
        self.history.push_reserved(Entry {
            sid,
            at,
            request,
            kept: stepped.kept,
            reply: stepped.reply,
        });
        Ok(reply)
    }

    /// All entries so far.
    pub fn history(&self) -> &[Entry]
        ensures is { result.now ≡ self.now.history }
        ensures sound { IsSound self.now.origin }
        ensures legal { IsLegal self.now.origin result.now }
        ensures within { length result.now ≤ self.now.limit }
        ensures records { HasRecords self.now.origin self.now.history self.now.keeper }
        ensures faults { CountsUnkept self.now.failed_before self.now.history self.now.keeper }
        ensures calls { CountsCalls self.now.called_before self.now.origin self.now.history self.now.asks self.now.keeper }
    {
        &self.history
    }

    /// Whether a request was answered that the history is full.
    pub fn refused(&self) -> bool
        ensures is { result ≡ self.now.refused }
        ensures full { OnTrue result (length self.now.history ≡ self.now.limit) }
    {
        self.refused
    }

    /// Ends it: the keeper comes back, with the records that it has, and all entries.
    pub fn close(self) -> (K, Vec<Entry>)
        ensures keeper { K.keeper_view result.0 ≡ self.keeper }
        ensures history { result.1.items ≡ self.history }
        ensures sound { IsSound self.origin }
        ensures legal { IsLegal self.origin self.history }
        ensures records { HasRecords self.origin self.history self.keeper }
        ensures faults { CountsUnkept self.failed_before self.history self.keeper }
        ensures calls { CountsCalls self.called_before self.origin self.history self.asks self.keeper }
    {
        let Book {
            keeper,
            history,
            ..
        } = self;
        (keeper, history)
    }
}
