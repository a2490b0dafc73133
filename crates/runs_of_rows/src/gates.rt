//! What always holds of a session of the Telnet gateway in which a device fails. Where the session stops in its dialogue,
//! the client was told a front of the row's texts and the log was given a front of its lines, a destination was asked for
//! exactly where its line stands in the log, and no denial and no link was told whose line doesn't. Behind the link it is as
//! with any relay.

use crate::comparing::{Called, Difference, Expected, Rest};
use crate::gateways::{dialogue, heard, is_linked, is_whole, relayed, up_to_prompt};
use crate::parts::{Parts, whole, with_last_word};
use crate::plan::Plan;
use crate::relays::{carried, down_ends, up_ends};
use crate::runner::Ended;
use crate::texts::{
    between, count_lines, count_lines_of, count_of, first_lines, front, later_lines, place_of,
};
use crate::verdicts::{is_connect, status_of, untouched, usual};
use crate::writing::{Text, add};
use format_of_rows::{Part, Row};

// What is expected where these destinations are asked for, and what the run leaves may be anything.
fn asking<'a>(
    status: u8,
    output: Option<&'a [u8]>,
    log: Parts<'a>,
    asked: &'a [u8],
    hung_up: u64,
) -> Expected<'a> {
    Expected {
        status,
        output,
        log,
        called: Called {
            started: &[],
            asked,
            given: &[],
            ends: &[],
            hung_up,
            remote: None,
        },
        rest: Rest {
            next: None,
            left: None,
            records: None,
            closed: false,
        },
    }
}

// Adds the destination of a connect line.
fn add_dest(out: &mut Text, line: &[u8]) {
    add(out, between(line, b" to ", b" line "));
    add(out, b"\n");
}

// Adds the destinations that the lines of the log ask for.
fn add_linked(out: &mut Text, log: &[u8]) {
    for at in 0..count_lines(log) {
        let line = first_lines(later_lines(log, at), 1);
        if is_connect(line) {
            add_dest(out, line);
        }
    }
}

/// The destinations that were asked for as the log has it.
pub(crate) fn linked_of(was: &Ended) -> Text {
    let mut linked = Text::new();
    add_linked(&mut linked, was.devices.place.logs.bytes());
    linked
}

// How many links of a dialogue were told, or that there is none.
fn links_told(told: &[u8]) -> u64 {
    count_of(told, b"No route\r\n").saturating_add(count_of(told, b"Connected\r\n"))
}

// Each denial of a destination and each link that was told stands in the log.
fn unlogged_differs(was: &Ended, difference: &mut Difference) {
    let log = was.devices.place.logs.bytes();
    let told = was.devices.talk.output.bytes();
    if !difference.is_none() {
        return;
    }
    if count_lines_of(log, b"refuse ") < count_of(told, b"Denied (line ") {
        difference.say(b"a denial is told that isn't logged");
    } else if count_lines_of(log, b"connect ") < links_told(told) {
        difference.say(b"a link is told that isn't logged");
    }
}

/// The log has lines of the row, from the first on, and then its last one with this cause.
pub(crate) fn log_differs(row: &Row, cause: &[u8], was: &Ended, difference: &mut Difference) {
    let (wanted, log) = (&row.wanted.log, was.devices.place.logs.bytes());
    let lines = count_lines(log).saturating_sub(1);
    let last = later_lines(wanted, count_lines(wanted).saturating_sub(1));
    difference.text_of(
        b"the log's first lines",
        first_lines(wanted, lines),
        first_lines(log, lines),
    );
    difference.parts_of(
        b"the log's last line",
        with_last_word(last, cause),
        later_lines(log, lines),
    );
}

// Where the session stops in its dialogue for this cause, behind these texts.
fn stop_differs(
    plan: &Plan,
    cause: &[u8],
    output: &[u8],
    hung_up: u64,
    was: &mut Ended,
    difference: &mut Difference,
) {
    let linked = linked_of(was);
    let expected = asking(4, Some(output), whole(&[]), linked.as_slice(), hung_up);
    difference.compare_unlogged(&expected, was);
    log_differs(plan.row, cause, was, difference);
    unlogged_differs(was, difference);
}

// Where the client's source fails, or nothing comes, for this cause: in the dialogue each line that was heard was answered,
// up to the next prompt.
fn client_differs(plan: &Plan, cause: &[u8], was: &mut Ended, difference: &mut Difference) {
    let row = plan.row;
    let taken = plan.broken.at.saturating_mul(plan.piece as u64);
    if is_linked(row) && heard(row) <= taken {
        let given = front(&row.wanted.called.given, taken.saturating_sub(heard(row)));
        up_ends(plan, cause, given, was, difference);
    } else {
        let lines = count_lines(front(&row.setting.client, taken));
        let told = up_to_prompt(row, lines.saturating_add(1));
        stop_differs(plan, cause, told, 0, was, difference);
    }
}

// How many links are hung up where the client can't be told of the last one.
fn links_up(row: &Row, was: &Ended) -> u64 {
    if linked_of(was).as_slice() == row.wanted.called.asked.as_slice() {
        return row.wanted.called.hung_up;
    }
    0
}

// Where the sink fails behind so many bytes of the row's.
fn told_differs(plan: &Plan, bytes: u64, was: &mut Ended, difference: &mut Difference) {
    let row = plan.row;
    let told = front(&row.wanted.output, bytes);
    if is_linked(row) && dialogue(row).len() <= told.len() {
        down_ends(plan, b"client", told, was, difference);
    } else {
        let hung_up = links_up(row, was);
        stop_differs(plan, b"client", told, hung_up, was, difference);
    }
}

// Where the sink fails at a call.
fn output_differs(plan: &Plan, was: &mut Ended, difference: &mut Difference) {
    let bytes = was.devices.talk.output.bytes().len() as u64;
    told_differs(plan, bytes, was, difference);
    if !is_linked(plan.row) && plan.row.wanted.output.len() as u64 <= bytes {
        difference.say(b"all is told");
    }
}

// Where the log fails behind the line of the verdict and before that of the end, and has this then: whole texts were told, and
// nothing is asked for behind.
fn line_differs(plan: &Plan, log: &[u8], was: &mut Ended, difference: &mut Difference) {
    let row = plan.row;
    let linked = linked_of(was);
    let told = was.devices.talk.output.bytes().len() as u64;
    let output = front(dialogue(row), told);
    let expected = asking(4, Some(output), whole(log), linked.as_slice(), 0);
    difference.compare(&expected, was);
    unlogged_differs(was, difference);
    if difference.is_none() && !is_whole(output) {
        difference.say(b"a text isn't told whole");
    }
}

// Where the log has this, and not what follows.
fn short_log_differs(plan: &Plan, log: &[u8], was: &mut Ended, difference: &mut Difference) {
    let row = plan.row;
    let (lines, all) = (count_lines(log), count_lines(&row.wanted.log));
    if lines == 0 {
        difference.compare(&untouched(row, plan.records, whole(log)), was);
    } else if all <= lines {
        difference.say(b"the log has fewer lines");
    } else if lines.saturating_add(1) < all {
        line_differs(plan, log, was, difference);
    } else {
        let expected = Expected {
            log: whole(log),
            ..usual(row, plan.records)
        };
        difference.compare(&expected, was);
    }
}

// Where the keeper fails at a call after it has loaded: a response is denied, which is logged, and the session goes on.
fn put_differs(plan: &Plan, was: &mut Ended, difference: &mut Difference) {
    let row = plan.row;
    let linked = linked_of(was);
    let expected = asking(status_of(row), None, whole(&[]), linked.as_slice(), 0);
    difference.compare_unlogged(&expected, was);
    unlogged_differs(was, difference);
    let log = was.devices.place.logs.bytes();
    difference.text_of(
        b"the verdict",
        first_lines(&row.wanted.log, 1),
        first_lines(log, 1),
    );
    if difference.is_none() && place_of(log, b" not kept\n").is_none() {
        difference.say(b"nothing is logged as not kept");
    }
}

fn keeper_differs(plan: &Plan, was: &mut Ended, difference: &mut Difference) {
    if plan.broken.at == 0 {
        let log = whole(b"fault outside records\n");
        difference.compare(&untouched(plan.row, plan.records, log), was);
    } else {
        put_differs(plan, was, difference);
    }
}

// Where the server's source fails, or nothing comes, for this cause.
fn server_differs(plan: &Plan, cause: &[u8], was: &mut Ended, difference: &mut Difference) {
    let row = plan.row;
    let bytes = carried(plan, relayed(row)).len();
    let told = dialogue(row).len().saturating_add(bytes) as u64;
    down_ends(
        plan,
        cause,
        front(&row.wanted.output, told),
        was,
        difference,
    );
}

// What a server's sink was given by the calls before: the first has what was taken with the connect line's end.
fn given_before<'a>(plan: &Plan<'a>) -> &'a [u8] {
    let given: &[u8] = &plan.row.wanted.called.given;
    if plan.broken.at == 0 {
        return &[];
    }
    let (heard, piece) = (heard(plan.row), (plan.piece as u64).max(1));
    let taken = (heard / piece)
        .saturating_add(plan.broken.at)
        .saturating_mul(piece);
    front(given, taken.saturating_sub(heard))
}

// Where the server's sink fails.
fn given_differs(plan: &Plan, given: &[u8], was: &mut Ended, difference: &mut Difference) {
    up_ends(plan, b"server", given, was, difference);
}

/// How many calls of a server's sink give it the row's bytes in these pieces.
pub(crate) fn gifts(plan: &Plan) -> u64 {
    let (heard, piece) = (heard(plan.row), (plan.piece as u64).max(1));
    let given = plan.row.wanted.called.given.len() as u64;
    if given == 0 {
        return 0;
    }
    heard
        .saturating_add(given)
        .div_ceil(piece)
        .saturating_sub(heard / piece)
}

/// Looks for what differs in a session of the Telnet gateway in which the part fails at a call that is made.
pub(crate) fn gate_differs(plan: &Plan, part: Part, was: &mut Ended, difference: &mut Difference) {
    let (row, at) = (plan.row, plan.broken.at);
    match part {
        Part::Client => client_differs(plan, b"client", was, difference),
        Part::ClientIdle => client_differs(plan, b"idle", was, difference),
        Part::Output => output_differs(plan, was, difference),
        Part::OutputRoom => told_differs(plan, at, was, difference),
        Part::Log => short_log_differs(plan, first_lines(&row.wanted.log, at), was, difference),
        Part::LogRoom => short_log_differs(plan, front(&row.wanted.log, at), was, difference),
        Part::Keeper => keeper_differs(plan, was, difference),
        Part::Server => server_differs(plan, b"server", was, difference),
        Part::ServerIdle => server_differs(plan, b"idle", was, difference),
        Part::Given => given_differs(plan, given_before(plan), was, difference),
        Part::GivenRoom => given_differs(
            plan,
            front(&row.wanted.called.given, at),
            was,
            difference,
        ),
        _ => difference.say(b"no rule says what then holds"),
    }
}
