//! A request and its reply.

use crate::fault::{Fault, Line, check};
use crate::stage::Stage;
use arrayvec::ArrayVec;
use auth_events::{PortFault, Reply, Request};
use authsrv_lines::{Wire, read_request, reply_text};
use fw_types::{Name, NoMemory};
use lines_of_rows::{Told, add, add_number, cut_word, number_of, unescape};
use std::alloc::Global;

const SALT: [u8; 8] = [1, 2, 3, 4, 5, 6, 7, 8];

const NO_ANSWER: [u8; 15] = *b"the link failed";

/// What a line asks, and what is answered.
#[derive(Drop)]
pub(crate) struct Row {
    pub(crate) sid: u64,
    pub(crate) at: u64,
    asked: Vec<u8>,
    told: Vec<u8>,
}

fn request_in(wire: Wire) -> Request {
    match wire {
        Wire::Ask(request) => request,
        Wire::Password { name, hash } => Request::Password {
            name,
            salt: SALT,
            hash,
        },
        Wire::List => Request::List { after: None },
        Wire::Quit => Request::Close,
    }
}

fn request_on(line: &[u8]) -> Option<Request> {
    match read_request(line) {
        Ok(wire) => Some(request_in(wire)),
        Err(_) => None,
    }
}

// The record that follows a name in a list.
fn list_after(name: &[u8]) -> Option<Request> {
    let after = Some(Name::read(name)?);
    Some(Request::List { after })
}

fn request_of(text: &[u8]) -> Option<Request> {
    let (word, rest) = cut_word(text);
    match word {
        b"open" => Some(Request::Open {
            console: rest == b"console".as_slice(),
        }),
        b"after" => list_after(rest),
        _ => request_on(text),
    }
}

// The text of a reply. Of a new session it has the number.
fn told_of(reply: &Reply) -> Told {
    let mut told = Told::new();
    if let Reply::Opened { sid } = reply {
        add(&mut told, b"opened");
        add_number(&mut told, *sid);
        return told;
    }
    let mut text = ArrayVec::new();
    reply_text(reply, &mut text);
    add(&mut told, text.as_slice());
    told
}

// What a line asks and says, before and behind the arrow.
fn sides_of<'a>(line: &Line<'a>) -> (&'a str, &'a str) {
    let Some((left, right)) = line.text.split_once(" =>") else {
        return (line.text, "");
    };
    let right = right.strip_prefix("*").unwrap_or(right);
    (left, right.strip_prefix(" ").unwrap_or(right))
}

// A row of these.
fn new_row(alloc: Global, left: &[u8], told: Vec<u8>) -> Result<Row, NoMemory> {
    let (sid, rest) = cut_word(left);
    let (at, asked) = cut_word(rest);
    let asked = Vec::from_slice(alloc, asked)?;
    Ok(Row {
        sid: number_of(sid),
        at: number_of(at),
        asked,
        told,
    })
}

/// What the line asks.
pub(crate) fn row_of(alloc: Global, line: &Line<'_>) -> Result<Row, NoMemory> {
    let (left, right) = sides_of(line);
    let left = unescape(alloc, left)?;
    let told = unescape(alloc, right)?;
    new_row(alloc, &left, told)
}

impl Row {
    /// Whether a session is opened.
    pub(crate) fn opens(&self) -> bool {
        self.asked.as_slice().starts_with(b"open")
    }

    /// Whether the reply says that a change wasn't kept.
    pub(crate) fn is_unkept(&self) -> bool {
        self.told.as_slice() == b"denied not kept".as_slice()
    }

    // Whether it says that there is no answer.
    fn is_told_nothing(&self) -> bool {
        self.told.as_slice() == NO_ANSWER.as_slice()
    }

    /// Whether this is the reply.
    pub(crate) fn is_told(&self, reply: &Reply) -> bool {
        self.told.as_slice() == told_of(reply).as_slice()
    }
}

fn compare_reply(line: &Line<'_>, row: &Row, reply: &Reply) -> Result<(), Fault> {
    let told = told_of(reply);
    check(
        line,
        row.told.as_slice() == told.as_slice(),
        told.as_slice(),
    )
}

// Asks this, and compares the reply, or that there is none, with what the row says.
fn ask_row(line: &Line<'_>, stage: &mut Stage, row: &Row, request: Request) -> Result<(), Fault> {
    match stage.ask(row.sid, row.at, request) {
        Ok(reply) => {
            let compared = compare_reply(line, row, &reply);
            drop(reply);
            compared
        }
        Err(PortFault::NoMemory) => Err(Fault::NoMemory),
        Err(_) => check(line, row.is_told_nothing(), &NO_ANSWER),
    }
}

/// Asks what the line asks.
pub(crate) fn ask(alloc: Global, line: &Line<'_>, stage: &mut Stage) -> Result<(), Fault> {
    let row = row_of(alloc, line)?;
    match request_of(&row.asked) {
        Some(request) => ask_row(line, stage, &row, request),
        None => Err(line.differs(b"no request")),
    }
}
