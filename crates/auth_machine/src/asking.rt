//! What a request is answered, and what it changes.
ghost use Rattle.auth_machine.specs.Policy.{PolicyView};
ghost use Rattle.auth_machine.specs.State.{State, session_of};
ghost use Rattle.auth_machine.specs.Step.{change_of};
ghost use Rattle.std.specs.Prelude.{ℕ, None, Some, ◌≡◌};

use crate::change::Change;
use crate::login::authenticate;
use crate::machine_ref::{MachineRef, session_of};
use crate::opening_session::{closes, opens};
use crate::operation_request::asks_operation;
use crate::passwords::{otp, password};
use crate::response::respond;
use crate::rights::{disable, enable, expire, group, proto, wiz};
use crate::showing::{display, list};
use crate::users::{add_user, deluser};
use crate::{Policy, Session};
use auth_events::{Denial, Request};
use auth_records::{Otp, Proto, Wiz};

pub(crate) fn without_session(place: u64, request: &Request) -> Change
    ensures { (policy : PolicyView) (s : State) (sid : ℕ) → session_of sid s.sessions ≡ None →
        result ≡ change_of policy s place sid request.now }
{
    match request {
        Request::Open { console } => opens(place, *console),
        _ => Change::denied(Denial::Closed),
    }
}

// What a request for this session is answered, and what it changes.
pub(crate) fn asked(
    policy: &Policy,
    machine: &MachineRef,
    place: u64,
    session: &Session,
    request: &Request,
) -> Change
    ensures { (sid : ℕ) → session_of sid machine.now.sessions ≡ Some session.now →
        result ≡ change_of policy.now machine.now place sid request.now }
{
    match request {
        Request::Open { console } => opens(place, *console),
        Request::Authenticate { name } => authenticate(policy, machine, session, name),
        Request::Response { hash, word } => respond(policy, machine, session, hash, *word),
        Request::Operation { service, host } => asks_operation(
            policy, machine, session, *service, host,
        ),
        Request::Adduser { name, long } => add_user(machine, session, name, long),
        Request::Deluser { name } => deluser(machine, session, name),
        Request::Enable { name } => enable(machine, session, name),
        Request::Disable { name } => disable(machine, session, name),
        Request::Group { name, group: its } => group(machine, session, name, its),
        Request::Proto { name, proto: its } => proto(machine, session, name, *its),
        Request::Password { name, salt, hash } => password(machine, session, name, salt, hash),
        Request::Otp {
            name,
            number,
            word_seed,
            kept,
        } => otp(machine, session, name, number, word_seed, *kept),
        Request::Wiz { name } => wiz(machine, session, name, Wiz::Group),
        Request::Unwiz { name } => wiz(machine, session, name, Wiz::None),
        Request::Superwiz { name } => wiz(machine, session, name, Wiz::Super),
        Request::Expire { name, until } => expire(machine, session, name, *until),
        Request::Display { name } => display(machine, session, name),
        Request::List { after } => list(machine, session, after),
        Request::Close => closes(),
    }
}

// What a request for the session of this number is answered, and what it changes.
pub(crate) fn change_of(
    policy: &Policy,
    machine: &MachineRef,
    place: u64,
    sid: u64,
    request: &Request,
) -> Change
    ensures { result ≡ change_of policy.now machine.now place sid request.now }
{
    match session_of(machine.sessions, sid) {
        None => without_session(place, request),
        Some(session) => asked(policy, machine, place, session, request),
    }
}
