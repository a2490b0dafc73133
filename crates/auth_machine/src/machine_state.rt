ghost use Rattle.std.specs.Prelude.{◌≡◌, OnOk, OnErr};
ghost use Rattle.fw_types.specs.Keyed.{Ascends};
ghost use Rattle.auth_machine.specs.Answer.{answer_of};
ghost use Rattle.auth_machine.specs.MachineState.{HasRoom, state_of};
ghost use Rattle.auth_machine.specs.State.{at_moment, changed, first_state, record_name};

use crate::apply::{change_challenges, change_records, change_sessions};
use crate::change::Change;
use crate::machine_ref::MachineRef;
use crate::room::make_room;
use crate::user_record::UserRecord;
use crate::{Challenge, Session};
use auth_events::Reply;
use fw_types::NoMemory;
use std::alloc::Global;

/// The records, the sessions and the challenges that stand, and the moment.
#[derive(Drop)]
pub(crate) struct MachineState {
    pub(crate) records: Vec<UserRecord>,
    pub(crate) sessions: Vec<Session>,
    pub(crate) challenges: Vec<Challenge>,
    pub(crate) moment: u64,
}

impl MachineState {
    // These records and nothing else.
    pub(crate) fn at_first(alloc: Global, records: Vec<UserRecord>) -> MachineState
        ensures { state_of result ≡ first_state records.items }
    {
        MachineState {
            records,
            sessions: Vec::new(alloc),
            challenges: Vec::new(alloc),
            moment: 0,
        }
    }

    // Makes room for one more of each.
    pub(crate) fn reserve(&mut self) -> Result<(), NoMemory>
        ensures same { state_of self.new ≡ state_of self.old }
        ensures room { OnOk result (HasRoom self.new) }
    {
        make_room(&mut self.records)?;
        make_room(&mut self.sessions)?;
        make_room(&mut self.challenges)?;
        Ok(())
    }

    // The same at a later moment.
    pub(crate) fn at_moment(&self, at: u64) -> MachineRef<'_>
        requires { Ascends record_name (state_of self.now).records }
        ensures { result ≡ at_moment at (state_of self.now) }
    {
        MachineRef {
            records: &self.records,
            sessions: &self.sessions,
            challenges: &self.challenges,
            moment: self.moment.max(at),
        }
    }

    // Lets time pass.
    pub(crate) fn wait(&mut self, at: u64)
        ensures { state_of self.new ≡ at_moment at (state_of self.old) }
    {
        self.moment = self.moment.max(at);
    }

    // Carries out a change of the session of this number.
    pub(crate) fn carry_out(&mut self, at: u64, sid: u64, change: Change) -> Reply
        requires room { HasRoom self.old }
        requires ordered { Ascends record_name (state_of self.old).records }
        ensures state { state_of self.new ≡ changed sid change (at_moment at (state_of self.old)) }
        ensures reply { answer_of result ≡ change.answer }
    {
        self.moment = self.moment.max(at);
        change_records(&mut self.records, change.records);
        change_sessions(&mut self.sessions, change.session, sid);
        change_challenges(&mut self.challenges, change.challenge, sid, self.moment);
        change.reply
    }
}
