//! What is told of what a run comes to.

use crate::texts::naming::{ending_of, number_32, outcome_of};
use bastion::{LogLine, denied_line, ending_line, ending_status};
use fw_types::{HostName, Peer};
use gate_rules::Service;
use lines_of_rows::{Told, add, add_number, add_word, cut_word};

// A status, and the line, or `-` where there is none.
fn add_status(status: u8, line: Option<LogLine>, out: &mut Told) {
    add_number(out, u64::from(status));
    match line {
        Some(line) => add_word(out, line.as_slice()),
        None => add_word(out, b"-"),
    }
}

/// `fault OUTCOME => STATUS LINE`: the status of a run that comes to this, and the log's line of what went wrong.
pub(crate) fn tell_fault(asked: &[u8], out: &mut Told) {
    match outcome_of(asked) {
        Some(outcome) => add_status(outcome.status(), outcome.fault_line(), out),
        None => add(out, b"no such outcome"),
    }
}

/// `ending SERVICE ENDING => STATUS LINE`: the status of a session that ends so, and the log's line of that, for the
/// client 10.1.2.3 of the name relay.other.org.
pub(crate) fn tell_ending(asked: &[u8], out: &mut Told) {
    let (service, name) = cut_word(asked);
    let (Some(service), Some(ending)) = (Service::read(service), ending_of(name)) else {
        return add(out, b"no such ending");
    };
    let peer = Peer {
        addr: Some([10, 1, 2, 3]),
        name: HostName::read(b"relay.other.org"),
    };
    let line = ending_line(&service, &peer, ending);
    add_status(ending_status(ending), line, out);
}

/// `denied LINE => TEXT`: what a client is told whom this line denies.
pub(crate) fn tell_denied(asked: &[u8], out: &mut Told) {
    add(out, denied_line(number_32(asked)).as_slice());
}
