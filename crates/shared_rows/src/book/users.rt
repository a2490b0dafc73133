//! A user whom one pass's port adds is shown to another's.
ghost use Rattle.turn_lock.specs.Known.{IsPassOf};

use crate::book::asking::{Answer, ask_at_console};
use crate::book::opening::{Users, open};
use crate::book::passes::{another, history_of};
use crate::book::telling::{tell_given, tell_history, tell_places};
use auth_events::{Entry, Request};
use auth_port::{Pass, SharedBook, Turns};
use auth_records::LongName;
use fw_types::{Name, NoMemory};
use lines_of_rows::{Told, add_word};
use std::alloc::Global;
use std::sync::Wait;

// What a port of this pass is answered, and the places of its entries.
fn asked_by<H: Wait>(
    rt: &H,
    alloc: Global,
    turns: &Turns<Users>,
    pass: Pass<Users>,
    request: Request,
) -> (Pass<Users>, Vec<u64>, Answer)
    requires { IsPassOf turns.now pass }
    ensures { IsPassOf turns.now result.0 }
{
    let mut port = SharedBook::new(rt, alloc, turns, pass);
    let answer = ask_at_console(&mut port, request);
    let (pass, places) = port.into_pass();
    (pass, places, answer)
}

#[derive(Drop)]
struct Shown {
    added: Answer,
    adder: Vec<u64>,
    shown: Answer,
    shower: Vec<u64>,
}

fn add_and_show<H: Wait>(
    rt: &H,
    alloc: Global,
    turns: &Turns<Users>,
    pass: Pass<Users>,
    add: Request,
    show: Request,
) -> (Pass<Users>, Shown)
    requires { IsPassOf turns.now pass }
    ensures { IsPassOf turns.now result.0 }
{
    let (pass, adder, added) = asked_by(rt, alloc, turns, pass, add);
    let mut pass = pass;
    let other = another(turns, &mut pass);
    let (other, shower, shown) = asked_by(rt, alloc, turns, other, show);
    turns.meet(&mut pass, other);
    let shown = Shown {
        added,
        adder,
        shown,
        shower,
    };
    (pass, shown)
}

fn visit<H: Wait>(
    rt: &H,
    alloc: Global,
    turns: Turns<Users>,
    pass: Pass<Users>,
    add: Request,
    show: Request,
) -> (Shown, Vec<Entry>)
    requires { IsPassOf turns pass }
{
    let (pass, shown) = add_and_show(rt, alloc, &turns, pass, add, show);
    (shown, history_of(rt, turns, pass))
}

fn held<H: Wait>(
    rt: &H,
    alloc: Global,
    add: Request,
    show: Request,
) -> Result<(Shown, Vec<Entry>), NoMemory> {
    match open(alloc, 100) {
        Ok((turns, pass)) => Ok(visit(rt, alloc, turns, pass, add, show)),
        Err(NoMemory) => Err(NoMemory),
    }
}

fn tell_shown(out: &mut Told, shown: &Shown, history: &[Entry]) {
    tell_given(out, &shown.added);
    tell_places(out, &shown.adder);
    tell_given(out, &shown.shown);
    tell_places(out, &shown.shower);
    tell_history(out, history);
}

/// What is answered to who adds and to who shows, and whose the entries are.
pub(crate) fn tell_user<H: Wait>(rt: &H, alloc: Global, out: &mut Told) {
    let (Some(name), Some(long)) = (Name::read(b"mjr"), LongName::read(b"Marcus")) else {
        return;
    };
    let show = Request::Display { name: name.twin() };
    match held(rt, alloc, Request::Adduser { name, long }, show) {
        Ok((shown, history)) => tell_shown(out, &shown, &history),
        Err(NoMemory) => add_word(out, b"no memory"),
    }
}
