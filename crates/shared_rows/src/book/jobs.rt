//! What a thread does over its port.
ghost use Rattle.std.specs.Prelude.{◌≡◌};

use crate::book::asking::ask;
use auth_events::{Reply, Request};
use auth_port::SharedBook;
use fw_memory::MemKeeper;
use fw_types::Name;
use std::sync::Wait;

// The moment of all logins.
const LOGIN: u64 = 4;

/// What each of the threads does.
#[derive(Clone, Copy)]
pub(crate) enum Job {
    /// Opens a session and closes it, so many times.
    Visit {
        times: u64,
    },
    /// Opens a session, and in it so many times asks for this user's password and says this.
    LogIn {
        user: &'static [u8],
        hash: [u8; 16],
        word: Option<u64>,
        times: u64,
    },
}

fn closes<H: Wait>(port: &mut SharedBook<'_, H, MemKeeper>, sid: u64, at: u64) -> bool
    ensures { port.new.origin ≡ port.old.origin }
{
    matches!(ask(port, sid, at, Request::Close), Ok(Reply::Ok))
}

fn opened<H: Wait>(port: &mut SharedBook<'_, H, MemKeeper>, at: u64) -> Option<u64>
    ensures { port.new.origin ≡ port.old.origin }
{
    match ask(port, 0, at, Request::Open { console: false }) {
        Ok(Reply::Opened { sid }) => Some(sid),
        _ => None,
    }
}

// Opens a session at this moment, and closes it.
fn visits_once<H: Wait>(port: &mut SharedBook<'_, H, MemKeeper>, at: u64) -> bool
    ensures { port.new.origin ≡ port.old.origin }
{
    match opened(port, at) {
        Some(sid) => closes(port, sid, at),
        None => false,
    }
}

// How many sessions were opened and closed.
fn visit<H: Wait>(port: &mut SharedBook<'_, H, MemKeeper>, at: u64, times: u64) -> u64
    ensures { port.new.origin ≡ port.old.origin }
{
    let mut made = 0u64;
    for _ in 0..times {
        if visits_once(port, at) {
            made = made.saturating_add(1);
        }
    }
    made
}

// Whether the user was let in.
fn logs_in<H: Wait>(
    port: &mut SharedBook<'_, H, MemKeeper>,
    sid: u64,
    user: &[u8],
    hash: [u8; 16],
    word: Option<u64>,
) -> bool
    ensures { port.new.origin ≡ port.old.origin }
{
    let Some(name) = Name::read(user) else {
        return false;
    };
    let _ = ask(port, sid, LOGIN, Request::Authenticate { name });
    matches!(
        ask(port, sid, LOGIN, Request::Response { hash, word }),
        Ok(Reply::Ok)
    )
}

// How many times the user was let in.
fn log_in<H: Wait>(
    port: &mut SharedBook<'_, H, MemKeeper>,
    sid: u64,
    user: &[u8],
    hash: [u8; 16],
    word: Option<u64>,
    times: u64,
) -> u64
    ensures { port.new.origin ≡ port.old.origin }
{
    let mut made = 0u64;
    for _ in 0..times {
        if logs_in(port, sid, user, hash, word) {
            made = made.saturating_add(1);
        }
    }
    made
}

fn open_and_log_in<H: Wait>(
    port: &mut SharedBook<'_, H, MemKeeper>,
    user: &[u8],
    hash: [u8; 16],
    word: Option<u64>,
    times: u64,
) -> u64
    ensures { port.new.origin ≡ port.old.origin }
{
    match opened(port, LOGIN) {
        Some(sid) => log_in(port, sid, user, hash, word, times),
        None => 0,
    }
}

/// Does the job, visits at this moment: how many sessions were opened and closed, or how many times the user was let in.
pub(crate) fn do_job<H: Wait>(port: &mut SharedBook<'_, H, MemKeeper>, job: Job, at: u64) -> u64
    ensures { port.new.origin ≡ port.old.origin }
{
    match job {
        Job::Visit { times } => visit(port, at, times),
        Job::LogIn {
            user,
            hash,
            word,
            times,
        } => open_and_log_in(port, user, hash, word, times),
    }
}
