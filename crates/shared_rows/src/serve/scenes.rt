//! The scenes.
ghost use Rattle.std.specs.Prelude.{All};
ghost use Rattle.fwtk_serve.specs.RulesFor.{MayServe};

use crate::serve::door::{Asked, Door, new_door};
use crate::serve::parts::{ATTACK, BOTH_GREETED, ONE_WORD, Part, TWO_LETTERS};
use crate::serve::records::{book, mail_rules, rules};
use crate::serve::spool::{Resting, rack, taken_by};
use crate::serve::telling::{tell_mail, tell_report, tell_told};
use acceptors::Acceptor;
use auth_machine::Book;
use fw_mail::Mailer;
use fw_memory::{Calls, MemDisk, MemKeeper, MemMailer, MemSink};
use fw_outside::Dialer;
use fw_types::NoMemory;
use fwtk_serve::{Report, serve};
use gate_rules::{Rules, Service};
use lines_of_rows::{Told, add_word};
use spool_rack::Rack;
use std::alloc::Global;
use std::sync::Wait;
use std::sync::atomic::AtomicU64;
use std::thread::{Parker, Threads};

/// What a server answered, and the messages that its mailer took.
type Answer<A> = Result<(Report<MemKeeper, A, MemDisk>, Told), NoMemory>;

// The server's own log has room for so many bytes.
const LOG_ROOM: usize = 1000;

// What a server has besides its doors and mailers.
#[derive(Drop)]
struct Devices {
    book: Book<MemKeeper>,
    rack: Rack<MemDisk>,
    logs: MemSink,
}

fn devices_for(alloc: Global, slots: u32) -> Result<Devices, NoMemory> {
    let Some(book) = book(alloc) else {
        return Err(NoMemory);
    };
    Ok(Devices {
        book,
        rack: rack(alloc, slots)?,
        logs: MemSink::new(alloc, LOG_ROOM, Calls::none())?,
    })
}

// Serves over so many slots, with a mailer that accepts all, and a rest between rounds until so many marks were told.
fn serve_by<H, A>(
    rt: &H,
    alloc: Global,
    told: &AtomicU64,
    rules: &[(Service, Rules)],
    doors: Vec<A>,
    slots: u32,
    marks: u64,
) -> Answer<A>
where
    H: Threads + Wait + Sync,
    A: Acceptor + Send,
    A::Logs: Send,
    A::Dial: Send,
    A::Tick: Send,
    A::Rand: Send,
    <A::Dial as Dialer>::Door: Send,
    requires { All MayServe rules.now }
{
    let mut mailers: Vec<Box<dyn Mailer>> = Vec::new(alloc);
    mailers.push(Box::new(alloc, MemMailer::new(alloc, Vec::new(alloc)))?)?;
    let Devices {
        book,
        rack,
        mut logs,
    } = devices_for(alloc, slots)?;
    let mut pacer = Resting {
        rt,
        parker: Parker::new(),
        told,
        marks,
    };
    let report = serve(
        rt,
        alloc,
        rules,
        book,
        doors,
        rack,
        &mut mailers,
        &mut logs,
        &mut pacer,
    );
    let taken = taken_by(&mailers);
    report.map(|report| (report, taken))
}

fn without_rules<'a, H: Threads + Wait + Sync>(
    rt: &'a H,
    alloc: Global,
    told: &'a AtomicU64,
) -> Answer<Door<'a, H>> {
    let one = new_door(rt, alloc, told, Asked::Telnet, &[], &[]);
    let doors = Vec::from_array(alloc, [one])?;
    serve_by(rt, alloc, told, &[], doors, 0, 0)
}

// A door for each of the parts.
fn doors_of<'a, H: Threads + Wait + Sync>(
    rt: &'a H,
    alloc: Global,
    told: &'a AtomicU64,
    parts: &[Part],
) -> Result<Vec<Door<'a, H>>, NoMemory> {
    let mut doors = Vec::new(alloc);
    for part in parts {
        doors.push(new_door(rt, alloc, told, part.asked, part.script, part.marks))?;
    }
    Ok(doors)
}

fn side_by_side<'a, H: Threads + Wait + Sync>(
    rt: &'a H,
    alloc: Global,
    told: &'a AtomicU64,
    parts: &[Part],
) -> Answer<Door<'a, H>> {
    let Some(ruled) = rules(alloc) else {
        return Err(NoMemory);
    };
    let doors = doors_of(rt, alloc, told, parts)?;
    serve_by(rt, alloc, told, &[ruled], doors, 0, 0)
}

/// One door, a client of `tn-gw`, and no rules.
pub(crate) fn tell_without_rules<H: Threads + Wait + Sync>(rt: &H, alloc: Global, out: &mut Told) {
    let told = AtomicU64::new(0);
    match without_rules(rt, alloc, &told) {
        Ok((report, _)) => tell_report(out, &report),
        Err(NoMemory) => add_word(out, b"no memory"),
    }
}

fn tell_parts<H: Threads + Wait + Sync>(rt: &H, alloc: Global, parts: &[Part], out: &mut Told) {
    let told = AtomicU64::new(0);
    match side_by_side(rt, alloc, &told, parts) {
        Ok((report, _)) => tell_told(out, &report),
        Err(NoMemory) => add_word(out, b"no memory"),
    }
}

/// Two doors, with a client each who goes once both were greeted.
pub(crate) fn tell_side_by_side<H: Threads + Wait + Sync>(rt: &H, alloc: Global, out: &mut Told) {
    tell_parts(rt, alloc, &BOTH_GREETED, out);
}

/// Nine doors, with a user and those who attack him.
pub(crate) fn tell_attack<H: Threads + Wait + Sync>(rt: &H, alloc: Global, out: &mut Told) {
    tell_parts(rt, alloc, &ATTACK, out);
}

/// Eight doors, with a client each who says the one password that is left.
pub(crate) fn tell_one_word<H: Threads + Wait + Sync>(rt: &H, alloc: Global, out: &mut Told) {
    tell_parts(rt, alloc, &ONE_WORD, out);
}

fn hand_in<'a, H: Threads + Wait + Sync>(
    rt: &'a H,
    alloc: Global,
    told: &'a AtomicU64,
    parts: &[Part],
) -> Answer<Door<'a, H>> {
    let Some(ruled) = mail_rules(alloc) else {
        return Err(NoMemory);
    };
    let doors = doors_of(rt, alloc, told, parts)?;
    serve_by(rt, alloc, told, &[ruled], doors, 2, 4)
}

/// Two doors, with a client each who hands in one message, two slots, and a mailer that accepts. The rounds rest until both clients
/// have gone, so the last one hands the messages on.
pub(crate) fn tell_two_letters<H: Threads + Wait + Sync>(rt: &H, alloc: Global, out: &mut Told) {
    let told = AtomicU64::new(0);
    match hand_in(rt, alloc, &told, &TWO_LETTERS) {
        Ok((report, taken)) => {
            if tell_mail(alloc, out, report, taken.as_slice()).is_err() {
                add_word(out, b"no memory");
            }
        }
        Err(NoMemory) => add_word(out, b"no memory"),
    }
}
