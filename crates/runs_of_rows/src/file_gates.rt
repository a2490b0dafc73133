//! What always holds of a session of the FTP gateway in which a device fails. Where the session stops, the client was told a
//! front of the row's replies, each link that was hung up was given a front of what the row says of one, in order, the log was
//! given a front of the row's lines and then that of the end, a destination was asked for exactly where its line stands in the
//! log, and no denial was told whose line doesn't. Where a data link fails, the session goes on, and the client is told in place
//! of the transfer's last reply that it ended early.

use crate::comparing::{Difference, Expected};
use crate::gates::{linked_of, log_differs};
use crate::parts::whole;
use crate::plan::Plan;
use crate::runner::Ended;
use crate::seen::add_asked;
use crate::texts::{
    count_lines, count_lines_of, count_of, first_lines, front, later_lines, place_of,
};
use crate::verdicts::{status_of, untouched, usual};
use crate::writing::{Text, add};
use format_of_rows::{Called, Part, Row};

/// What the client is told of a transfer that ended early.
const EARLY: &[u8] = b"426 Transfer ended early\r\n";

/// What a server says at the end of a transfer.
const DONE: &[u8] = b"226 ";

// The text is a front of the row's.
fn front_of(difference: &mut Difference, what: &[u8], row: &[u8], was: &[u8]) {
    difference.text_of(what, front(row, was.len() as u64), was);
}

fn is_data_line(line: &[u8]) -> bool {
    line.starts_with(b"side ") || line.starts_with(b"back ") || line.starts_with(b"door ")
}

// The destinations among what was asked for.
fn mains_of(asked: &[u8]) -> Text {
    let mut mains = Text::new();
    for at in 0..count_lines(asked) {
        let line = first_lines(later_lines(asked, at), 1);
        if !is_data_line(line) {
            add(&mut mains, line);
        }
    }
    mains
}

fn asked_of(was: &Ended) -> Text {
    let mut asked = Text::new();
    add_asked(&mut asked, &was.devices.helpers.dialer);
    asked
}

// Each destination was asked for whose line stands in the log, and no other.
fn mains_differ(was: &Ended, difference: &mut Difference) {
    let (asked, linked) = (asked_of(was), linked_of(was));
    let mains = mains_of(asked.as_slice());
    difference.text_of(b"the destinations", linked.as_slice(), mains.as_slice());
}

// How many denials of a verb or a destination the client was told.
fn denials_told(told: &[u8]) -> u64 {
    count_of(told, b"500 Denied (line ")
        .saturating_add(count_of(told, b"530 Denied (line "))
        .saturating_add(count_of(told, b"530 Log in first (line "))
}

// Each of them stands in the log.
fn unlogged_differs(was: &Ended, difference: &mut Difference) {
    let log = was.devices.place.logs.bytes();
    let logged = count_lines_of(log, b"refuse ").saturating_add(count_lines_of(log, b"blocked "));
    if difference.is_none() && logged < denials_told(was.devices.talk.output.bytes()) {
        difference.say(b"a denial is told that isn't logged");
    }
}

// What the row's link of this number is given, counted from 0.
fn given_at(called: &Called, at: usize) -> &[u8] {
    let end = called.ends.get(at).copied().unwrap_or(called.given.len());
    let start = match at.checked_sub(1) {
        Some(before) => called.ends.get(before).copied().unwrap_or(end),
        None => 0,
    };
    called.given.get(start..end).unwrap_or(&[])
}

// The number behind that of the first of the row's links, from this one on, that is given a text with this front.
fn link_behind(row: &Row, from: usize, front: &[u8]) -> Option<usize> {
    let called = &row.wanted.called;
    for at in from..called.ends.len().saturating_add(1) {
        if given_at(called, at).starts_with(front) {
            return Some(at.saturating_add(1));
        }
    }
    None
}

// Each link that was hung up was given a front of what one of the row's is given, in order.
fn given_differs(row: &Row, was: &Ended, difference: &mut Difference) {
    let mut next: usize = 0;
    for (_, to) in was.devices.helpers.dialer.ended() {
        match link_behind(row, next, to.bytes()) {
            Some(at) => next = at,
            None if difference.is_none() => difference.say(b"a link is given what none is to be"),
            None => {}
        }
    }
}

/// What was told, asked for and given is as the row says, as far as it goes.
pub(crate) fn fronts_differ(plan: &Plan, was: &Ended, difference: &mut Difference) {
    let (row, asked) = (plan.row, asked_of(was));
    front_of(
        difference,
        b"the output",
        &row.wanted.output,
        was.devices.talk.output.bytes(),
    );
    front_of(
        difference,
        b"what was asked for",
        &row.wanted.called.asked,
        asked.as_slice(),
    );
    mains_differ(was, difference);
    given_differs(row, was, difference);
    unlogged_differs(was, difference);
}

// Where the session stops for this cause.
fn stop_differs(plan: &Plan, cause: &[u8], was: &mut Ended, difference: &mut Difference) {
    difference.number_of(b"the status", 4, u64::from(was.status));
    fronts_differ(plan, was, difference);
    log_differs(plan.row, cause, was, difference);
}

// Where the client's source fails, or nothing comes, for this cause: each line that was heard was answered.
fn client_differs(plan: &Plan, cause: &[u8], was: &mut Ended, difference: &mut Difference) {
    stop_differs(plan, cause, was, difference);
    let taken = plan.broken.at.saturating_mul(plan.piece as u64);
    let heard = count_lines(front(&plan.row.setting.client, taken));
    let told = count_lines(was.devices.talk.output.bytes());
    if difference.is_none() && told <= heard {
        difference.number_of(b"the count of replies", heard.saturating_add(1), told);
    }
}

// Where the client's sink fails.
fn output_differs(plan: &Plan, was: &mut Ended, difference: &mut Difference) {
    stop_differs(plan, b"client", was, difference);
    let told = was.devices.talk.output.bytes().len();
    if difference.is_none() && plan.row.wanted.output.len() <= told {
        difference.say(b"all is told");
    }
}

// Where it has room for so many bytes.
fn output_room_differs(plan: &Plan, was: &mut Ended, difference: &mut Difference) {
    output_differs(plan, was, difference);
    difference.text_of(
        b"the output",
        front(&plan.row.wanted.output, plan.broken.at),
        was.devices.talk.output.bytes(),
    );
}

// Where the log fails behind the line of the verdict and before that of the end, and has this then: whole replies were told.
fn line_differs(plan: &Plan, log: &[u8], was: &mut Ended, difference: &mut Difference) {
    difference.number_of(b"the status", 4, u64::from(was.status));
    difference.text_of(b"the log", log, was.devices.place.logs.bytes());
    fronts_differ(plan, was, difference);
    if difference.is_none() && !was.devices.talk.output.bytes().ends_with(b"\r\n") {
        difference.say(b"a reply isn't told whole");
    }
}

// Where the log has this, and not what follows.
fn short_log_differs(plan: &Plan, log: &[u8], was: &mut Ended, difference: &mut Difference) {
    let row = plan.row;
    let (lines, all) = (count_lines(log), count_lines(&row.wanted.log));
    if lines == 0 {
        difference.compare(&untouched(row, plan.records, whole(log)), was);
    } else if all <= lines {
        difference.say(b"the log has fewer lines");
    } else if lines.saturating_add(1) < all {
        line_differs(plan, log, was, difference);
    } else {
        let expected = Expected {
            log: whole(log),
            ..usual(row, plan.records)
        };
        difference.compare(&expected, was);
    }
}

// A session that goes on to its end, whatever is told in it.
fn lasting_differs(plan: &Plan, was: &mut Ended, difference: &mut Difference) {
    let row = plan.row;
    let log = was.devices.place.logs.bytes();
    difference.number_of(
        b"the status",
        u64::from(status_of(row)),
        u64::from(was.status),
    );
    difference.text_of(
        b"the verdict",
        first_lines(&row.wanted.log, 1),
        first_lines(log, 1),
    );
    mains_differ(was, difference);
    unlogged_differs(was, difference);
}

// Where the keeper fails: as it loads, or at a later call, and then a login is denied, which is logged.
fn keeper_differs(plan: &Plan, was: &mut Ended, difference: &mut Difference) {
    if plan.broken.at == 0 {
        let log = whole(b"fault outside records\n");
        difference.compare(&untouched(plan.row, plan.records, log), was);
        return;
    }
    lasting_differs(plan, was, difference);
    if difference.is_none() && place_of(was.devices.place.logs.bytes(), b" not kept\n").is_none() {
        difference.say(b"nothing is logged as not kept");
    }
}

// Where the dialer refuses a link or a door, which the client is told.
fn dialer_differs(plan: &Plan, was: &mut Ended, difference: &mut Difference) {
    lasting_differs(plan, was, difference);
    if difference.is_none() && count_lines_of(was.devices.talk.output.bytes(), b"425 ") == 0 {
        difference.say(b"no refusal is told");
    }
}

// What the client is told where the first transfer ends early.
fn early_output(row: &Row) -> Text {
    let output: &[u8] = &row.wanted.output;
    let mut told = Text::new();
    let mut early = false;
    for at in 0..count_lines(output) {
        let line = first_lines(later_lines(output, at), 1);
        if !early && line.starts_with(DONE) {
            early = true;
            add(&mut told, EARLY);
        } else {
            add(&mut told, line);
        }
    }
    told
}

// Where a data link fails, or nothing comes over it.
fn data_differs(plan: &Plan, was: &mut Ended, difference: &mut Difference) {
    let (row, asked) = (plan.row, asked_of(was));
    let told = early_output(row);
    let (wanted, status) = (u64::from(status_of(row)), u64::from(was.status));
    difference.number_of(b"the status", wanted, status);
    difference.text_of(
        b"the output",
        told.as_slice(),
        was.devices.talk.output.bytes(),
    );
    difference.text_of(b"the log", &row.wanted.log, was.devices.place.logs.bytes());
    difference.text_of(
        b"what was asked for",
        &row.wanted.called.asked,
        asked.as_slice(),
    );
    given_differs(row, was, difference);
    let hung_up = was.devices.helpers.dialer.ended().len() as u64;
    difference.number_of(b"the links hung up", row.wanted.called.hung_up, hung_up);
}

/// Looks for what differs in a session of the FTP gateway in which the part fails at a call that is made.
pub(crate) fn ftp_differs(plan: &Plan, part: Part, was: &mut Ended, difference: &mut Difference) {
    let (row, at) = (plan.row, plan.broken.at);
    match part {
        Part::Client => client_differs(plan, b"client", was, difference),
        Part::ClientIdle => client_differs(plan, b"idle", was, difference),
        Part::Output => output_differs(plan, was, difference),
        Part::OutputRoom => output_room_differs(plan, was, difference),
        Part::Log => short_log_differs(plan, first_lines(&row.wanted.log, at), was, difference),
        Part::LogRoom => short_log_differs(plan, front(&row.wanted.log, at), was, difference),
        Part::Keeper => keeper_differs(plan, was, difference),
        Part::Dialer => dialer_differs(plan, was, difference),
        Part::ServerIdle => stop_differs(plan, b"idle", was, difference),
        Part::Server | Part::Given | Part::GivenRoom => {
            stop_differs(plan, b"server", was, difference);
        }
        Part::Data | Part::DataIdle | Part::DataGiven | Part::DataRoom => {
            data_differs(plan, was, difference);
        }
        _ => difference.say(b"no rule says what then holds"),
    }
}
