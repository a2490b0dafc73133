//! What always holds of a relay in which a device fails. The order of its two ways isn't told, so what either side was given
//! is looked at by itself: where one side fails, the other way goes on to its end.

use crate::comparing::{Called, Difference, Expected};
use crate::parts::with_last_word;
use crate::plan::Plan;
use crate::runner::Ended;
use crate::texts::front;
use crate::verdicts::{called_by, untouched, usual};
use format_of_rows::Part;

/// The most bytes that a way of a relay takes at once.
const PIECE: usize = 4096;

/// The bytes that the first calls carry.
pub(crate) fn carried<'a>(plan: &Plan, text: &'a [u8]) -> &'a [u8] {
    let piece = plan.piece.min(PIECE) as u64;
    front(text, plan.broken.at.saturating_mul(piece))
}

/// As the row says, but for what the client was told, and for this cause of the end.
pub(crate) fn down_ends(
    plan: &Plan,
    cause: &[u8],
    output: &[u8],
    was: &mut Ended,
    difference: &mut Difference,
) {
    let row = plan.row;
    let expected = Expected {
        status: 4,
        output: Some(output),
        log: with_last_word(&row.wanted.log, cause),
        ..usual(row, plan.records)
    };
    difference.compare(&expected, was);
}

/// As the row says, but for what the server was given, and for this cause of the end.
pub(crate) fn up_ends(
    plan: &Plan,
    cause: &[u8],
    given: &[u8],
    was: &mut Ended,
    difference: &mut Difference,
) {
    let row = plan.row;
    let called = Called {
        given,
        ends: &[],
        ..called_by(&row.wanted)
    };
    let expected = Expected {
        status: 4,
        log: with_last_word(&row.wanted.log, cause),
        called,
        ..usual(row, plan.records)
    };
    difference.compare(&expected, was);
}

/// Where the link is refused: nothing is heard, told or given.
pub(crate) fn refused_differs(plan: &Plan, was: &mut Ended, difference: &mut Difference) {
    let row = plan.row;
    let called = Called {
        started: &[],
        asked: &row.wanted.called.asked,
        given: &[],
        ends: &[],
        hung_up: 0,
        remote: None,
    };
    let log = with_last_word(&row.wanted.log, b"noroute");
    let expected = Expected {
        called,
        ..untouched(row, plan.records, log)
    };
    difference.compare(&expected, was);
}

/// Looks for what differs where a side of the relay fails.
pub(crate) fn relay_differs(plan: &Plan, part: Part, was: &mut Ended, difference: &mut Difference) {
    let output: &[u8] = &plan.row.wanted.output;
    let given: &[u8] = &plan.row.wanted.called.given;
    match part {
        Part::Client => up_ends(plan, b"client", carried(plan, given), was, difference),
        Part::ClientIdle => up_ends(plan, b"idle", carried(plan, given), was, difference),
        Part::Given => up_ends(plan, b"server", carried(plan, given), was, difference),
        Part::GivenRoom => {
            up_ends(
                plan,
                b"server",
                front(given, plan.broken.at),
                was,
                difference,
            );
        }
        Part::Server => down_ends(plan, b"server", carried(plan, output), was, difference),
        Part::ServerIdle => down_ends(plan, b"idle", carried(plan, output), was, difference),
        Part::Output => down_ends(plan, b"client", carried(plan, output), was, difference),
        _ => down_ends(
            plan,
            b"client",
            front(output, plan.broken.at),
            was,
            difference,
        ),
    }
}
