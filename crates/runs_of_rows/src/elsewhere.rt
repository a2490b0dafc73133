//! What always holds of a session of a gateway whose authentication server, which is elsewhere, breaks off: it ends with `auth`, and
//! what was told, logged, asked for and given by then is as the row says, as far as it goes. The records are as they were.

use crate::comparing::{Called, Difference, Expected};
use crate::file_gates::fronts_differ;
use crate::gates::log_differs;
use crate::parts::with_last_word;
use crate::plan::Plan;
use crate::runner::Ended;
use crate::seen::{remote_given, table_of};
use crate::texts::{count_lines, first_lines, front};
use crate::verdicts::{called_by, moment_after, usual};
use format_of_rows::{Part, Row};
use fw_outside::Clock;

/// Where the link breaks off: so many requests were answered by then, and so many bytes were given.
#[derive(Clone, Copy)]
struct Stop {
    answered: u64,
    given: u64,
}

fn said_by(row: &Row) -> &[u8] {
    match &row.setting.remote {
        Some(said) => said,
        None => &[],
    }
}

// How many bytes the first lines have that the server is given.
fn given_in(row: &Row, lines: u64) -> u64 {
    first_lines(&row.wanted.called.remote, lines).len() as u64
}

// Each request is answered by a line, and each but the first, which opens the session, gives one.
fn stop_of(plan: &Plan, part: Part) -> Stop {
    let (row, at) = (plan.row, plan.broken.at);
    match part {
        Part::RemoteGiven => Stop {
            answered: at.saturating_add(1),
            given: given_in(row, at),
        },
        Part::RemoteRoom => Stop {
            answered: count_lines(front(&row.wanted.called.remote, at)).saturating_add(1),
            given: at,
        },
        _ => {
            let taken = at.saturating_mul(plan.piece as u64);
            let answered = count_lines(front(said_by(row), taken));
            Stop {
                answered,
                given: given_in(row, answered),
            }
        }
    }
}

// How many requests are asked: those that are answered, the one that isn't, and the close of a session that is open then.
fn asked_by(row: &Row, stop: Stop) -> u64 {
    let asked = stop.answered.saturating_add(1);
    if stop.answered == 0 || count_lines(said_by(row)) <= asked {
        return asked;
    }
    asked.saturating_add(1)
}

// Where the last request isn't answered, which closes the session: all else is done and told.
fn close_differs(plan: &Plan, stop: Stop, was: &mut Ended, difference: &mut Difference) {
    let row = plan.row;
    let called = Called {
        remote: Some(front(&row.wanted.called.remote, stop.given)),
        ..called_by(&row.wanted)
    };
    let expected = Expected {
        status: 4,
        log: with_last_word(&row.wanted.log, b"auth"),
        called,
        ..usual(row, plan.records)
    };
    difference.compare(&expected, was);
}

// Where an earlier request isn't answered.
fn stop_differs(plan: &Plan, stop: Stop, was: &mut Ended, difference: &mut Difference) {
    let row = plan.row;
    difference.number_of(b"the status", 4, u64::from(was.status));
    difference.text_of(
        b"what the server elsewhere was given",
        front(&row.wanted.called.remote, stop.given),
        remote_given(&was.devices.helpers),
    );
    fronts_differ(plan, was, difference);
    log_differs(row, b"auth", was, difference);
    difference.number_of(
        b"the moment of the next request",
        moment_after(row, asked_by(row, stop)),
        was.devices.place.clock.now(),
    );
    difference.records_of(plan.records, table_of(&was.keeper));
}

/// Looks for what differs in a session whose server elsewhere breaks off at a call that is made.
pub(crate) fn remote_differs(
    plan: &Plan,
    part: Part,
    was: &mut Ended,
    difference: &mut Difference,
) {
    let stop = stop_of(plan, part);
    if count_lines(said_by(plan.row)) <= stop.answered.saturating_add(1) {
        close_differs(plan, stop, was, difference);
    } else {
        stop_differs(plan, stop, was, difference);
    }
}
