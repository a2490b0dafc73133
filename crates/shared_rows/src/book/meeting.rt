//! One pass opens a session, then another, then the first again; and they meet.
ghost use Rattle.turn_lock.specs.Known.{IsPassOf};

use crate::book::opening::{Users, open};
use crate::book::passes::{another, history_of};
use crate::book::telling::{tell_answer, tell_history};
use auth_events::{Entry, Request};
use auth_port::{Answered, Asking, Pass, Turns};
use fw_types::NoMemory;
use lines_of_rows::{Told, add_word};
use std::alloc::Global;
use std::sync::Wait;

fn opens<H: Wait>(rt: &H, turns: &Turns<Users>, pass: &mut Pass<Users>) -> Answered
    requires { IsPassOf turns.now pass.old }
    ensures { IsPassOf turns.now pass.new }
{
    let asking = Asking {
        sid: 0,
        at: 100,
        request: Request::Open { console: false },
    };
    turns.with_turn(rt, pass, asking)
}

// The other pass opens a session, then this one; and they meet.
fn two_open<H: Wait>(
    rt: &H,
    turns: &Turns<Users>,
    one: &mut Pass<Users>,
    other: Pass<Users>,
) -> (Answered, Answered)
    requires one { IsPassOf turns.now one.old }
    requires other { IsPassOf turns.now other }
    ensures { IsPassOf turns.now one.new }
{
    let mut other = other;
    let second = opens(rt, turns, &mut other);
    let third = opens(rt, turns, one);
    turns.meet(one, other);
    (second, third)
}

#[derive(Drop)]
struct Meeting {
    first: Answered,
    second: Answered,
    third: Answered,
}

fn three_open<H: Wait>(rt: &H, turns: &Turns<Users>, one: &mut Pass<Users>) -> Meeting
    requires { IsPassOf turns.now one.old }
    ensures { IsPassOf turns.now one.new }
{
    let first = opens(rt, turns, one);
    let other = another(turns, one);
    let (second, third) = two_open(rt, turns, one, other);
    Meeting {
        first,
        second,
        third,
    }
}

fn meet<H: Wait>(rt: &H, turns: Turns<Users>, pass: Pass<Users>) -> (Meeting, Vec<Entry>)
    requires { IsPassOf turns pass }
{
    let mut pass = pass;
    let meeting = three_open(rt, &turns, &mut pass);
    (meeting, history_of(rt, turns, pass))
}

fn held<H: Wait>(rt: &H, alloc: Global, limit: u64) -> Result<(Meeting, Vec<Entry>), NoMemory> {
    match open(alloc, limit) {
        Ok((turns, pass)) => Ok(meet(rt, turns, pass)),
        Err(NoMemory) => Err(NoMemory),
    }
}

/// What the two are answered, and whose the entries are, where so many fit.
pub(crate) fn tell_meeting<H: Wait>(rt: &H, alloc: Global, limit: u64, out: &mut Told) {
    match held(rt, alloc, limit) {
        Ok((meeting, history)) => {
            tell_answer(out, &meeting.first);
            tell_answer(out, &meeting.second);
            tell_answer(out, &meeting.third);
            tell_history(out, &history);
        }
        Err(NoMemory) => add_word(out, b"no memory"),
    }
}
