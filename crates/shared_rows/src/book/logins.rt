//! A user who is attacked while he logs in, and a one-time password that four threads say at once.
ghost use Rattle.std.specs.Prelude.{◌≡◌};
ghost use Rattle.turn_lock.specs.Known.{IsPassOf};

use crate::book::asking::{Answer, ask};
use crate::book::enrolling::{enrol_otp, enrol_plain};
use crate::book::jobs::Job;
use crate::book::opening::{Users, open};
use crate::book::passes::history_of;
use crate::book::sharing::share;
use crate::book::telling::{tell_counts, tell_given};
use auth_events::{Entry, Reply, Request};
use auth_port::{Pass, SharedBook, Turns};
use fw_memory::MemKeeper;
use fw_types::{Name, NoMemory};
use lines_of_rows::{Told, add_word};
use std::alloc::Global;
use std::sync::Wait;
use std::thread::Threads;

// Says a wrong password of the user six times.
const ATTACK: Job = Job::LogIn {
    user: b"mjr",
    hash: [0; 16],
    word: None,
    times: 6,
};

// Says the one password that is left (RFC 2289, appendix C).
const ONE_WORD: Job = Job::LogIn {
    user: b"otp1",
    hash: [0; 16],
    word: Some(0x9E87_6134_D904_99DD),
    times: 1,
};

// The digest of `secret`.
const RIGHT: [u8; 16] = [
    0x5e, 0xbe, 0x22, 0x94, 0xec, 0xd0, 0xe0, 0xf0, 0x8e, 0xab, 0x76, 0x90, 0xd2, 0xa6, 0xee, 0x69,
];

// Enrols the user, opens a session for him and asks for his password. The session's number.
fn begins<H: Wait>(port: &mut SharedBook<'_, H, MemKeeper>, name: &Name) -> u64
    ensures { port.new.origin ≡ port.old.origin }
{
    enrol_plain(port, name, RIGHT);
    match ask(port, 0, 0, Request::Open { console: false }) {
        Ok(Reply::Opened { sid }) => {
            let _ = ask(port, sid, 0, Request::Authenticate { name: name.twin() });
            sid
        }
        _ => 0,
    }
}

fn begun<H: Wait>(
    rt: &H,
    alloc: Global,
    turns: &Turns<Users>,
    pass: Pass<Users>,
    name: &Name,
) -> (Pass<Users>, u64)
    requires { IsPassOf turns.now pass }
    ensures { IsPassOf turns.now result.0 }
{
    let mut port = SharedBook::new(rt, alloc, turns, pass);
    let sid = begins(&mut port, name);
    let (pass, _) = port.into_pass();
    (pass, sid)
}

// The user says the right password.
fn ended<H: Wait>(
    rt: &H,
    alloc: Global,
    turns: &Turns<Users>,
    pass: Pass<Users>,
    sid: u64,
) -> (Pass<Users>, Answer)
    requires { IsPassOf turns.now pass }
    ensures { IsPassOf turns.now result.0 }
{
    let mut port = SharedBook::new(rt, alloc, turns, pass);
    let request = Request::Response {
        hash: RIGHT,
        word: None,
    };
    let answer = ask(&mut port, sid, 10, request);
    let (pass, _) = port.into_pass();
    (pass, answer)
}

// Four threads say wrong passwords after the user was asked for his, and before he says it.
fn attacked<H: Threads + Wait + Sync>(
    rt: &H,
    alloc: Global,
    turns: &Turns<Users>,
    pass: Pass<Users>,
    name: &Name,
) -> (Pass<Users>, Answer)
    requires { IsPassOf turns.now pass }
    ensures { IsPassOf turns.now result.0 }
{
    let (pass, sid) = begun(rt, alloc, turns, pass, name);
    let (pass, _) = share(rt, alloc, turns, pass, ATTACK);
    ended(rt, alloc, turns, pass, sid)
}

fn attack<H: Threads + Wait + Sync>(
    rt: &H,
    alloc: Global,
    turns: Turns<Users>,
    pass: Pass<Users>,
    name: &Name,
) -> (Answer, Vec<Entry>)
    requires { IsPassOf turns pass }
{
    let (pass, answer) = attacked(rt, alloc, &turns, pass, name);
    (answer, history_of(rt, turns, pass))
}

fn held_attack<H: Threads + Wait + Sync>(
    rt: &H,
    alloc: Global,
    name: &Name,
) -> Result<(Answer, Vec<Entry>), NoMemory> {
    match open(alloc, 100) {
        Ok((turns, pass)) => Ok(attack(rt, alloc, turns, pass, name)),
        Err(NoMemory) => Err(NoMemory),
    }
}

fn enrolled<H: Wait>(
    rt: &H,
    alloc: Global,
    turns: &Turns<Users>,
    pass: Pass<Users>,
    name: &Name,
) -> Pass<Users>
    requires { IsPassOf turns.now pass }
    ensures { IsPassOf turns.now result }
{
    let mut port = SharedBook::new(rt, alloc, turns, pass);
    enrol_otp(&mut port, name);
    let (pass, _) = port.into_pass();
    pass
}

fn spent<H: Threads + Wait + Sync>(
    rt: &H,
    alloc: Global,
    turns: &Turns<Users>,
    pass: Pass<Users>,
    name: &Name,
) -> Pass<Users>
    requires { IsPassOf turns.now pass }
    ensures { IsPassOf turns.now result }
{
    let pass = enrolled(rt, alloc, turns, pass, name);
    let (pass, _) = share(rt, alloc, turns, pass, ONE_WORD);
    pass
}

fn spend<H: Threads + Wait + Sync>(
    rt: &H,
    alloc: Global,
    turns: Turns<Users>,
    pass: Pass<Users>,
    name: &Name,
) -> Vec<Entry>
    requires { IsPassOf turns pass }
{
    let pass = spent(rt, alloc, &turns, pass, name);
    history_of(rt, turns, pass)
}

fn held_word<H: Threads + Wait + Sync>(
    rt: &H,
    alloc: Global,
    name: &Name,
) -> Result<Vec<Entry>, NoMemory> {
    match open(alloc, 100) {
        Ok((turns, pass)) => Ok(spend(rt, alloc, turns, pass, name)),
        Err(NoMemory) => Err(NoMemory),
    }
}

/// What all were answered, and the user, whose right password comes after the attack.
pub(crate) fn tell_attack<H: Threads + Wait + Sync>(rt: &H, alloc: Global, out: &mut Told) {
    let Some(name) = Name::read(b"mjr") else {
        return;
    };
    match held_attack(rt, alloc, &name) {
        Ok((answer, history)) => {
            tell_counts(out, &history);
            tell_given(out, &answer);
        }
        Err(NoMemory) => add_word(out, b"no memory"),
    }
}

/// What all were answered, of whom one is let in.
pub(crate) fn tell_word<H: Threads + Wait + Sync>(rt: &H, alloc: Global, out: &mut Told) {
    let Some(name) = Name::read(b"otp1") else {
        return;
    };
    match held_word(rt, alloc, &name) {
        Ok(history) => tell_counts(out, &history),
        Err(NoMemory) => add_word(out, b"no memory"),
    }
}
