//! What is told of answers and histories.
use crate::book::asking::Answer;
use auth_events::{Denial, Entry, Reply, Request};
use auth_port::Answered;
use lines_of_rows::{Told, add_number, add_word};

/// Of a new session its number, and of a user that is shown both names.
pub(crate) fn tell_reply(out: &mut Told, reply: &Reply) {
    match reply {
        Reply::Opened { sid } => {
            add_word(out, b"opened");
            add_number(out, *sid);
        }
        Reply::Ok => add_word(out, b"ok"),
        Reply::Shown(summary) => {
            add_word(out, b"shown");
            add_word(out, summary.name.text());
            add_word(out, summary.long.text());
        }
        Reply::Denied(Denial::Sleeping { until }) => {
            add_word(out, b"sleeping until");
            add_number(out, *until);
        }
        _ => add_word(out, b"another reply"),
    }
}

pub(crate) fn tell_answer(out: &mut Told, answer: &Answered) {
    match answer {
        Answered::Entered { place, reply } => {
            tell_reply(out, reply);
            add_word(out, b"at");
            add_number(out, *place);
        }
        Answered::Full { limit } => {
            add_word(out, b"full at");
            add_number(out, *limit);
        }
        Answered::NoMemory => add_word(out, b"no memory"),
    }
}

pub(crate) fn tell_given(out: &mut Told, answer: &Answer) {
    match answer {
        Ok(reply) => tell_reply(out, reply),
        Err(_) => add_word(out, b"no reply"),
    }
}

/// Whose each entry is.
pub(crate) fn tell_history(out: &mut Told, history: &[Entry]) {
    add_word(out, b"| sessions");
    for entry in history {
        add_number(out, entry.sid);
    }
}

pub(crate) fn tell_places(out: &mut Told, places: &[u64]) {
    add_word(out, b"| places");
    for place in places {
        add_number(out, *place);
    }
}

#[derive(Clone, Copy)]
enum Kind {
    Login,
    Wrong,
    Sleeping,
}

fn is_of_kind(kind: Kind, request: &Request, reply: &Reply) -> bool {
    match (kind, request, reply) {
        (Kind::Login, Request::Response { .. }, Reply::Ok) => true,
        (Kind::Wrong, _, Reply::Denied(Denial::Wrong)) => true,
        (Kind::Sleeping, _, Reply::Denied(Denial::Sleeping { .. })) => true,
        _ => false,
    }
}

fn tell_kind(out: &mut Told, history: &[Entry], kind: Kind, word: &[u8]) {
    let mut count = 0u64;
    for entry in history {
        if is_of_kind(kind, &entry.request, &entry.reply) {
            count = count.saturating_add(1);
        }
    }
    add_number(out, count);
    add_word(out, word);
}

/// How many entries there are, how many logins went well, how many were wrong, and how often the user had to wait.
pub(crate) fn tell_counts(out: &mut Told, history: &[Entry]) {
    add_number(out, history.len() as u64);
    add_word(out, b"entries |");
    tell_kind(out, history, Kind::Login, b"let in");
    tell_kind(out, history, Kind::Wrong, b"wrong");
    tell_kind(out, history, Kind::Sleeping, b"sleeping |");
}
