//! What differs in a run in which a device fails at a call that is made.

use crate::comparing::{Called, Difference, Expected};
use crate::elsewhere::remote_differs;
use crate::file_gates::ftp_differs;
use crate::gates::gate_differs;
use crate::parts::{both, whole, with_last_word, without_line};
use crate::plan::Plan;
use crate::relays::{refused_differs, relay_differs};
use crate::runner::Ended;
use crate::texts::{count_lines, first_lines, front, has_line, later_lines};
use crate::verdicts::{
    called_by, connect, is_connect, is_ftp, is_gate, is_netacl, is_plug, is_session, is_verdict,
    lasting, paced_moment, stopped, untouched, usual, verdict,
};
use format_of_rows::Part;

// How many lines the client has said when so many pieces of it were heard.
fn heard_lines(plan: &Plan, takes: u64) -> u64 {
    let bytes = takes.saturating_mul(plan.piece as u64);
    count_lines(front(&plan.row.setting.client, bytes))
}

// Where the client's source fails, or nothing comes, for this cause.
fn client_differs(plan: &Plan, cause: &[u8], was: &mut Ended, difference: &mut Difference) {
    let row = plan.row;
    let texts = count_lines(was.devices.talk.output.bytes());
    let next = paced_moment(row, texts.saturating_add(1));
    let log = with_last_word(&row.wanted.log, cause);
    difference.compare(
        &stopped(first_lines(&row.wanted.output, texts), log, next),
        was,
    );
    let owed = heard_lines(plan, plan.broken.at).saturating_add(1);
    if texts < owed {
        difference.number_of(b"the count of texts", owed, texts);
    }
}

// Where the sink of a session fails within the text of this number.
fn session_output_differs(
    plan: &Plan,
    texts: u64,
    output: &[u8],
    was: &mut Ended,
    difference: &mut Difference,
) {
    let log = with_last_word(&plan.row.wanted.log, b"client");
    let next = paced_moment(plan.row, texts.saturating_add(2));
    difference.compare(&stopped(output, log, next), was);
}

// As the row says, but for the output.
fn output_alone_differs(plan: &Plan, output: &[u8], was: &mut Ended, difference: &mut Difference) {
    let row = plan.row;
    let expected = Expected {
        output: Some(output),
        ..usual(row, plan.records)
    };
    difference.compare(&expected, was);
}

// Where the sink fails within the text of this number.
fn output_differs(
    plan: &Plan,
    texts: u64,
    output: &[u8],
    was: &mut Ended,
    difference: &mut Difference,
) {
    if is_session(plan.row) {
        session_output_differs(plan, texts, output, was, difference);
    } else {
        output_alone_differs(plan, output, was, difference);
    }
}

// Where the sink fails at the text of this number, which the row has.
fn text_differs(plan: &Plan, was: &mut Ended, difference: &mut Difference) {
    let (output, texts) = (&plan.row.wanted.output, plan.broken.at);
    if count_lines(output) <= texts {
        difference.say(b"the output has fewer lines");
    } else {
        output_differs(plan, texts, first_lines(output, texts), was, difference);
    }
}

// Where the sink has room for so many bytes.
fn output_room_differs(plan: &Plan, was: &mut Ended, difference: &mut Difference) {
    let given = front(&plan.row.wanted.output, plan.broken.at);
    output_differs(plan, count_lines(given), given, was, difference);
}

// Nothing was asked, taken or kept, and this was logged.
fn untouched_differs(plan: &Plan, log: &[u8], was: &mut Ended, difference: &mut Difference) {
    difference.compare(&untouched(plan.row, plan.records, whole(log)), was);
}

// What is logged where the line of the verdict can't be.
fn log_without_verdict(plan: &Plan) -> &'static [u8] {
    if is_netacl(plan.row) {
        return b"fault outside log\n";
    }
    b""
}

// As the row says, but for a line of the log.
fn line_alone_differs(plan: &Plan, was: &mut Ended, difference: &mut Difference) {
    let row = plan.row;
    let expected = Expected {
        log: without_line(&row.wanted.log, plan.broken.at),
        ..usual(row, plan.records)
    };
    difference.compare(&expected, was);
}

// Where the log fails at this line, which the row has.
fn line_differs(plan: &Plan, was: &mut Ended, difference: &mut Difference) {
    let log = &plan.row.wanted.log;
    let failed = later_lines(log, plan.broken.at);
    if is_verdict(failed) {
        untouched_differs(plan, log_without_verdict(plan), was, difference);
    } else if is_connect(failed) {
        untouched_differs(plan, first_lines(log, plan.broken.at), was, difference);
    } else {
        line_alone_differs(plan, was, difference);
    }
}

// Where the log fails at this line.
fn log_differs(plan: &Plan, was: &mut Ended, difference: &mut Difference) {
    if count_lines(&plan.row.wanted.log) <= plan.broken.at {
        difference.say(b"the log has fewer lines");
    } else {
        line_differs(plan, was, difference);
    }
}

// As the row says, but for the end of the log.
fn front_alone_differs(plan: &Plan, was: &mut Ended, difference: &mut Difference) {
    let row = plan.row;
    let expected = Expected {
        log: whole(front(&row.wanted.log, plan.broken.at)),
        ..usual(row, plan.records)
    };
    difference.compare(&expected, was);
}

// Where the log has room for so many bytes.
fn log_room_differs(plan: &Plan, was: &mut Ended, difference: &mut Difference) {
    let log = front(&plan.row.wanted.log, plan.broken.at);
    if log.len() < verdict(plan.row).len().max(connect(plan.row).len()) {
        untouched_differs(plan, log, was, difference);
    } else {
        front_alone_differs(plan, was, difference);
    }
}

// Where the keeper fails at a call after it has loaded.
fn put_differs(plan: &Plan, was: &mut Ended, difference: &mut Difference) {
    difference.compare(&lasting(plan.row), was);
    let told = was.devices.talk.output.bytes();
    if difference.is_none() && !has_line(told, b"denied not kept\n") {
        difference.say(b"nothing is denied as not kept");
    }
}

// Where the keeper fails as it loads, or at a later call.
fn keeper_differs(plan: &Plan, was: &mut Ended, difference: &mut Difference) {
    if plan.broken.at == 0 {
        untouched_differs(plan, b"fault outside records\n", was, difference);
    } else {
        put_differs(plan, was, difference);
    }
}

// Where the program of this number can't be started: all lines but that of its end are printed.
fn program_differs(plan: &Plan, was: &mut Ended, difference: &mut Difference) {
    let row = plan.row;
    let lines = count_lines(&row.wanted.output).saturating_sub(1);
    let called = Called {
        started: first_lines(&row.wanted.called.started, plan.broken.at),
        ..called_by(&row.wanted)
    };
    let expected = Expected {
        status: 4,
        output: Some(first_lines(&row.wanted.output, lines)),
        log: both(&row.wanted.log, b"fault outside program\n"),
        called,
        ..usual(row, plan.records)
    };
    difference.compare(&expected, was);
}

// Where a side of a session fails.
fn side_differs(plan: &Plan, part: Part, was: &mut Ended, difference: &mut Difference) {
    match part {
        Part::Client => client_differs(plan, b"client", was, difference),
        Part::ClientIdle => client_differs(plan, b"idle", was, difference),
        Part::Output => text_differs(plan, was, difference),
        Part::OutputRoom => output_room_differs(plan, was, difference),
        _ => difference.say(b"no rule says what then holds"),
    }
}

// What differs where the part fails at a call that is made.
fn part_differs(plan: &Plan, part: Part, was: &mut Ended, difference: &mut Difference) {
    match part {
        Part::Table | Part::TableIdle => {
            untouched_differs(plan, b"fault outside table\n", was, difference);
        }
        Part::Remote | Part::RemoteIdle | Part::RemoteGiven | Part::RemoteRoom => {
            remote_differs(plan, part, was, difference);
        }
        _ if is_gate(plan.row) => gate_differs(plan, part, was, difference),
        _ if is_ftp(plan.row) => ftp_differs(plan, part, was, difference),
        Part::Log => log_differs(plan, was, difference),
        Part::LogRoom => log_room_differs(plan, was, difference),
        Part::Keeper => keeper_differs(plan, was, difference),
        Part::Program => program_differs(plan, was, difference),
        Part::Dialer => refused_differs(plan, was, difference),
        _ if is_plug(plan.row) => relay_differs(plan, part, was, difference),
        _ => side_differs(plan, part, was, difference),
    }
}

/// Looks for what differs where something fails at a call that is made.
pub(crate) fn broken_differs(plan: &Plan, was: &mut Ended, difference: &mut Difference) {
    if let Some(part) = plan.broken.part {
        part_differs(plan, part, was, difference);
    }
}
