//! What is expected of a row, and what always holds of a run in which a device fails.

use crate::comparing::{Called, Expected, Rest, UNCALLED};
use crate::devices::NEXT;
use crate::parts::{Parts, whole};
use crate::texts::{first_lines, later_lines};
use format_of_rows::{Row, Wanted};
use fw_types::{Name, Octets};

fn next_by(row: &Row) -> Option<u64> {
    if row.trial.untimed {
        return None;
    }
    Some(NEXT)
}

fn left_by(row: &Row) -> Option<&[u8]> {
    if row.wanted.untaken {
        return Some(&row.setting.client);
    }
    None
}

fn kept_by<'a>(row: &'a Row, records: &'a [(Name, Octets)]) -> Option<&'a [(Name, Octets)]> {
    if let Some(kept) = &row.wanted.keeper {
        return Some(kept);
    }
    if row.wanted.unchanged {
        return Some(records);
    }
    None
}

/// What is expected of those whom the row's run calls.
pub(crate) fn called_by(wanted: &Wanted) -> Called<'_> {
    Called {
        started: &wanted.called.started,
        asked: &wanted.called.asked,
        given: &wanted.called.given,
        ends: &wanted.called.ends,
        hung_up: wanted.called.hung_up,
        remote: Some(&wanted.called.remote),
    }
}

/// The status of a row that is run as its file says.
pub(crate) fn status_of(row: &Row) -> u8 {
    row.wanted.status.unwrap_or(0)
}

/// What is expected of a row that is run as its file says.
pub(crate) fn usual<'a>(row: &'a Row, records: &'a [(Name, Octets)]) -> Expected<'a> {
    Expected {
        status: status_of(row),
        output: Some(&row.wanted.output),
        log: whole(&row.wanted.log),
        called: called_by(&row.wanted),
        rest: Rest {
            next: next_by(row),
            left: left_by(row),
            records: kept_by(row, records),
            closed: row.wanted.closed,
        },
    }
}

/// What is expected where a run ends before it asked, took or kept anything: this log, and status 4.
pub(crate) fn untouched<'a>(
    row: &'a Row,
    records: &'a [(Name, Octets)],
    log: Parts<'a>,
) -> Expected<'a> {
    Expected {
        status: 4,
        output: Some(&[]),
        log,
        called: Called {
            remote: Some(&[]),
            ..UNCALLED
        },
        rest: Rest {
            next: Some(moment_after(row, 0)),
            left: Some(&row.setting.client),
            records: Some(records),
            closed: false,
        },
    }
}

/// What is expected of a session that ends early with this log, after these texts.
pub(crate) fn stopped<'a>(output: &'a [u8], log: Parts<'a>, next: Option<u64>) -> Expected<'a> {
    Expected {
        status: 4,
        output: Some(output),
        log,
        called: UNCALLED,
        rest: Rest {
            next,
            left: None,
            records: None,
            closed: false,
        },
    }
}

/// What is expected of a session that goes on to its end, whatever is told in it.
pub(crate) fn lasting(row: &Row) -> Expected<'_> {
    Expected {
        status: status_of(row),
        output: None,
        log: whole(&row.wanted.log),
        called: UNCALLED,
        rest: Rest {
            next: None,
            left: Some(&[]),
            records: None,
            closed: false,
        },
    }
}

/// The moment that follows so many requests.
pub(crate) fn moment_after(row: &Row, requests: u64) -> u64 {
    match usize::try_from(requests) {
        Ok(at) => match row.setting.moments.get(at) {
            Some(moment) => *moment,
            None => NEXT,
        },
        Err(_) => NEXT,
    }
}

/// The same, where the row says which requests belong to which texts.
pub(crate) fn paced_moment(row: &Row, requests: u64) -> Option<u64> {
    if row.trial.paced {
        return Some(moment_after(row, requests));
    }
    None
}

/// The line of the log with the verdict, which is empty where there is none.
pub(crate) fn verdict(row: &Row) -> &[u8] {
    let line = first_lines(&row.wanted.log, 1);
    if is_verdict(line) { line } else { &[] }
}

/// Whether a line tells a verdict.
pub(crate) fn is_verdict(line: &[u8]) -> bool {
    line.starts_with(b"permit ") || line.starts_with(b"deny ")
}

/// Whether a line tells of a link that is asked for.
pub(crate) fn is_connect(line: &[u8]) -> bool {
    line.starts_with(b"connect ")
}

/// The lines of the log up to the one that tells of a link that is asked for, which are none where there is no such line.
pub(crate) fn connect(row: &Row) -> &[u8] {
    if is_connect(later_lines(&row.wanted.log, 1)) {
        return first_lines(&row.wanted.log, 2);
    }
    &[]
}

/// Whether a client or a console is served.
pub(crate) fn is_session(row: &Row) -> bool {
    last_line(row).starts_with(b"end ")
}

fn has_word(row: &Row, sought: &[u8]) -> bool {
    for word in &row.setting.words {
        if word.bytes() == sought {
            return true;
        }
    }
    false
}

/// Whether the words ask for the verdict alone, which a fault's line then follows.
pub(crate) fn is_netacl(row: &Row) -> bool {
    has_word(row, b"netacl")
}

/// Whether the words ask for a relay.
pub(crate) fn is_plug(row: &Row) -> bool {
    has_word(row, b"plug-gw")
}

/// Whether the words ask for a session of the Telnet gateway, and the client is permitted.
pub(crate) fn is_gate(row: &Row) -> bool {
    has_word(row, b"tn-gw") && verdict(row).starts_with(b"permit ")
}

/// Whether the words ask for a session of the FTP gateway, and the client is permitted.
pub(crate) fn is_ftp(row: &Row) -> bool {
    has_word(row, b"ftp-gw") && verdict(row).starts_with(b"permit ")
}

// The last line of the log.
fn last_line(row: &Row) -> &[u8] {
    let verdict = verdict(row);
    later_lines(&row.wanted.log, if verdict.is_empty() { 0 } else { 1 })
}
