//! What is told of the lines of replies.

use crate::records::records::{tell_dates, tell_group, tell_long_name, tell_standing};
use arrayvec::ArrayVec;
use auth_events::{Denial, Reply, Summary};
use authsrv_lines::{denial_text, read_reply, reply_text};
use lines_of_rows::{Told, add, add_number, add_word, number_of};

// Tells the kind of a denial that has a number.
fn tell_numbers(denial: Denial, out: &mut Told) {
    match denial {
        Denial::Expired { at } => {
            add_word(out, b"Expired");
            add_number(out, at);
        }
        Denial::Sleeping { until } => {
            add_word(out, b"Sleeping");
            add_number(out, until);
        }
        Denial::Busy { sid, until } => {
            add_word(out, b"Busy");
            add_number(out, sid);
            add_number(out, until);
        }
        Denial::NoRule { line } => {
            add_word(out, b"NoRule");
            add_number(out, u64::from(line));
        }
        Denial::Full { limit } => {
            add_word(out, b"Full");
            add_number(out, limit);
        }
        _ => add_word(out, b"another denial"),
    }
}

fn tell_denial(denial: Denial, out: &mut Told) {
    match denial {
        Denial::Unknown => add_word(out, b"Unknown"),
        Denial::Wrong => add_word(out, b"Wrong"),
        Denial::Disabled => add_word(out, b"Disabled"),
        Denial::Exhausted => add_word(out, b"Exhausted"),
        Denial::NoChallenge => add_word(out, b"NoChallenge"),
        Denial::NotIn => add_word(out, b"NotIn"),
        Denial::NotWizard => add_word(out, b"NotWizard"),
        Denial::Exists => add_word(out, b"Exists"),
        Denial::NoSuch => add_word(out, b"NoSuch"),
        Denial::Closed => add_word(out, b"Closed"),
        Denial::NotKept => add_word(out, b"NotKept"),
        _ => tell_numbers(denial, out),
    }
}

// Tells where the text of a denial isn't this.
fn tell_denial_text(denial: Denial, text: &[u8], out: &mut Told) {
    let mut written = ArrayVec::new();
    denial_text(denial, &mut written);
    if written.as_slice() != text {
        add_word(out, b"as a denial written otherwise");
    }
}

fn tell_summary(summary: &Summary, out: &mut Told) {
    add_word(out, summary.name.text());
    tell_long_name(&summary.long, out);
    tell_group(&summary.group, out);
    tell_standing(summary.proto, summary.enabled, summary.wiz, out);
    add_word(out, b"fails");
    add_number(out, u64::from(summary.fails));
    add_word(out, b"number");
    add_number(out, u64::from(summary.number));
    tell_dates(summary.last, summary.expires, out);
}

fn tell_fields(reply: &Reply, text: &[u8], out: &mut Told) {
    match reply {
        Reply::Opened { sid } => {
            add(out, b"Opened");
            add_number(out, *sid);
        }
        Reply::Password => add(out, b"Password"),
        Reply::Ok => add(out, b"Ok"),
        Reply::Challenge { number, word_seed } => {
            add(out, b"Challenge");
            add_number(out, u64::from(*number));
            add_word(out, word_seed.text());
        }
        Reply::Shown(summary) => {
            add(out, b"Shown");
            tell_summary(summary, out);
        }
        Reply::Denied(denial) => {
            add(out, b"Denied");
            tell_denial(*denial, out);
            tell_denial_text(*denial, text, out);
        }
    }
}

/// `reply TEXT => FIELDS`, where they are written as the same text again. `-` is none.
pub(crate) fn tell_reply(asked: &[u8], out: &mut Told) {
    let Some(reply) = read_reply(asked) else {
        return add(out, b"-");
    };
    let reply = reply.twin();
    tell_fields(&reply, asked, out);
    let mut text = ArrayVec::new();
    reply_text(&reply, &mut text);
    if text.as_slice() != asked {
        add_word(out, b"written otherwise");
    }
}

/// `opened NUMBER => TEXT`.
pub(crate) fn tell_opened(asked: &[u8], out: &mut Told) {
    let mut text = ArrayVec::new();
    let reply = Reply::Opened {
        sid: number_of(asked),
    };
    reply_text(&reply, &mut text);
    add(out, text.as_slice());
}
