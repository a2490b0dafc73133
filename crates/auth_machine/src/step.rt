//! One step of the machine, with the keeper beside it.
ghost use Rattle.std.specs.Prelude.{◌≡◌, IfOk, OnErr};
ghost use Rattle.fw_types.specs.Keyed.{Ascends};
ghost use Rattle.auth_events.specs.Port.{session_at};
ghost use Rattle.auth_machine.specs.Keeping.{MayBeCalled};
ghost use Rattle.auth_machine.specs.MachineState.{state_of};
ghost use Rattle.auth_machine.specs.State.{record_name};
ghost use Rattle.auth_machine.specs.Step.{keeps};
ghost use Rattle.auth_machine.specs.Stepping.{Steps};

use crate::Policy;
use crate::asking::change_of;
use crate::keeping::keep;
use crate::machine_state::MachineState;
use auth_events::{Denial, Reply, Request};
use fw_outside::Keeper;
use fw_types::NoMemory;
use std::alloc::Global;

/// A reply, and whether what it says of the records was kept.
#[derive(Drop)]
pub(crate) struct Stepped {
    pub(crate) reply: Reply,
    pub(crate) kept: bool,
}

// The number of the session to which a request at this place belongs.
pub(crate) fn session_of(request: &Request, place: u64, sid: u64) -> u64
    ensures { result ≡ session_at request.now place sid }
{
    match request {
        Request::Open { .. } => place,
        _ => sid,
    }
}

// Answers the request at this place, and carries out what it changes, where that is kept.
#[tactic(auto, unfolding(crate::specs::Step::proposed))]
pub(crate) fn step<K: Keeper>(
    alloc: Global,
    policy: &Policy,
    state: &mut MachineState,
    keeper: &mut K,
    place: u64,
    sid: u64,
    at: u64,
    request: &Request,
) -> Result<Stepped, NoMemory>
    requires { Ascends record_name (state_of state.old).records }
    ensures done { IfOk result (λ done. Steps policy.now place sid at request.now done.reply done.kept (state_of
        state.old) (state_of state.new) (K.keeper_view keeper.old) (K.keeper_view keeper.new)) }
    ensures state { OnErr result (state_of state.new ≡ state_of state.old) }
    ensures keeper { OnErr result (MayBeCalled (keeps policy.now (state_of state.old) place sid at request.now)
        (K.keeper_view keeper.old) (K.keeper_view keeper.new)) }
{
    state.reserve()?;
    let change = change_of(policy, &state.at_moment(at), place, sid, request);
    if !keep(alloc, keeper, &state.records, &change.records)? {
        state.wait(at);
        return Ok(Stepped {
            reply: Reply::Denied(Denial::NotKept),
            kept: false,
        });
    }
    let reply = state.carry_out(at, session_of(request, place, sid), change);
    Ok(Stepped { reply, kept: true })
}
