//! Whether a run came to what is expected.

use crate::devices::{Helpers, Place, Talk};
use crate::parts::{Parts, whole};
use crate::runner::Ended;
use crate::seen::{
    add_asked, add_given, add_left, add_records, add_started, remote_given, table_of,
};
use crate::writing::{Text, add, add_number};
use fw_outside::Clock;
use fw_types::{Name, Octets};

/// What is expected of those whom a run calls.
#[derive(Clone, Copy)]
pub(crate) struct Called<'a> {
    /// The programs that were started, each with its arguments in a line.
    pub(crate) started: &'a [u8],
    /// The destinations that were asked for, each in a line.
    pub(crate) asked: &'a [u8],
    /// What servers were given.
    pub(crate) given: &'a [u8],
    /// Where what a link was given ends in that, but for the last one; no place where that may be anywhere.
    pub(crate) ends: &'a [usize],
    /// How many links were hung up.
    pub(crate) hung_up: u64,
    /// What an authentication server elsewhere was given. `None` may be anything.
    pub(crate) remote: Option<&'a [u8]>,
}

/// What is expected of what a run leaves. What is `None` may be anything.
#[derive(Clone, Copy)]
pub(crate) struct Rest<'a> {
    /// The moment of the next request.
    pub(crate) next: Option<u64>,
    /// What the client would still say.
    pub(crate) left: Option<&'a [u8]>,
    /// What the keeper has.
    pub(crate) records: Option<&'a [(Name, Octets)]>,
    /// Whether the last entry of the history closes the first session. Where it is `false`, the entry may be any.
    pub(crate) closed: bool,
}

/// What is expected of a run.
#[derive(Clone, Copy)]
pub(crate) struct Expected<'a> {
    pub(crate) status: u8,
    /// What was printed, or told to the client. `None` may be anything.
    pub(crate) output: Option<&'a [u8]>,
    pub(crate) log: Parts<'a>,
    pub(crate) called: Called<'a>,
    pub(crate) rest: Rest<'a>,
}

/// Nobody is called.
pub(crate) const UNCALLED: Called<'static> = Called {
    started: &[],
    asked: &[],
    given: &[],
    ends: &[],
    hung_up: 0,
    remote: None,
};

// Says that a text isn't the one that was expected, unless something is said already.
fn add_difference(out: &mut Text, what: &[u8], wanted: Parts, was: &[u8]) {
    if out.is_empty() && !wanted.are(was) {
        add(out, what);
        add(out, b", expected ");
        wanted.add_quoted(out);
        add(out, b", was ");
        whole(was).add_quoted(out);
    }
}

fn is_twin(one: &(Name, Octets), other: &(Name, Octets)) -> bool {
    one.0.text() == other.0.text() && one.1.bytes() == other.1.bytes()
}

fn are_same(wanted: &[(Name, Octets)], was: &[(Name, Octets)]) -> bool {
    if wanted.len() != was.len() {
        return false;
    }
    for (one, other) in wanted.iter().zip(was) {
        if !is_twin(one, other) {
            return false;
        }
    }
    true
}

/// The first thing that differs, in words; empty where nothing does.
#[derive(Drop)]
pub struct Difference {
    text: Text,
    /// What a device shows.
    shown: Text,
}

impl Difference {
    /// Nothing.
    pub(crate) fn none() -> Difference {
        Difference {
            text: Text::new(),
            shown: Text::new(),
        }
    }

    /// Whether nothing differs.
    pub(crate) fn is_none(&self) -> bool {
        self.text.is_empty()
    }

    /// In words.
    pub(crate) fn text(&self) -> &[u8] {
        self.text.as_slice()
    }

    /// Adds words.
    pub(crate) fn say(&mut self, words: &[u8]) {
        add(&mut self.text, words);
    }

    /// Adds a number.
    pub(crate) fn say_number(&mut self, number: u64) {
        add_number(&mut self.text, number);
    }

    /// Compares two texts, unless something differs already.
    pub fn text_of(&mut self, what: &[u8], wanted: &[u8], was: &[u8]) {
        add_difference(&mut self.text, what, whole(wanted), was);
    }

    /// Compares a text with one that is expected in parts, unless something differs already.
    pub(crate) fn parts_of(&mut self, what: &[u8], wanted: Parts, was: &[u8]) {
        add_difference(&mut self.text, what, wanted, was);
    }

    // Compares a text with what is shown.
    fn shown_of(&mut self, what: &[u8], wanted: &[u8]) {
        add_difference(&mut self.text, what, whole(wanted), self.shown.as_slice());
    }

    /// Compares two numbers, unless something differs already.
    pub(crate) fn number_of(&mut self, what: &[u8], wanted: u64, was: u64) {
        if self.is_none() && wanted != was {
            self.say(what);
            self.say(b", expected ");
            self.say_number(wanted);
            self.say(b", was ");
            self.say_number(was);
        }
    }

    fn started_of(&mut self, expected: &Called, helpers: &Helpers) {
        self.shown.clear();
        add_started(&mut self.shown, &helpers.launcher);
        self.shown_of(b"what was started", expected.started);
    }

    fn asked_of(&mut self, expected: &Called, helpers: &Helpers) {
        self.shown.clear();
        add_asked(&mut self.shown, &helpers.dialer);
        self.shown_of(b"what was asked for", expected.asked);
    }

    fn given_of(&mut self, expected: &Called, helpers: &Helpers) {
        self.shown.clear();
        add_given(&mut self.shown, &helpers.dialer);
        self.shown_of(b"what servers were given", expected.given);
        let mut end: usize = 0;
        for (wanted, (_, to)) in expected.ends.iter().zip(helpers.dialer.ended()) {
            end = end.saturating_add(to.bytes().len());
            self.number_of(
                b"the end of what a link was given",
                *wanted as u64,
                end as u64,
            );
        }
    }

    // Compares what an authentication server elsewhere was given, where that is any matter.
    fn remote_of(&mut self, expected: &Called, helpers: &Helpers) {
        if let Some(wanted) = expected.remote {
            self.text_of(
                b"what the server elsewhere was given",
                wanted,
                remote_given(helpers),
            );
        }
    }

    // Compares what those were told whom the run called.
    fn called_of(&mut self, expected: &Called, helpers: &Helpers) {
        self.started_of(expected, helpers);
        self.asked_of(expected, helpers);
        self.given_of(expected, helpers);
        let hung_up = helpers.dialer.ended().len() as u64;
        self.number_of(b"the links hung up", expected.hung_up, hung_up);
        self.remote_of(expected, helpers);
    }

    /// Compares the records that the keeper has, unless something differs already.
    pub(crate) fn records_of(&mut self, wanted: &[(Name, Octets)], was: &[(Name, Octets)]) {
        if !self.is_none() || are_same(wanted, was) {
            return;
        }
        self.say(b"the records, expected ");
        self.shown.clear();
        add_records(&mut self.shown, wanted);
        whole(self.shown.as_slice()).add_quoted(&mut self.text);
        self.say(b", was ");
        self.shown.clear();
        add_records(&mut self.shown, was);
        whole(self.shown.as_slice()).add_quoted(&mut self.text);
    }

    fn left_of(&mut self, wanted: &[u8], talk: &mut Talk) {
        self.shown.clear();
        add_left(&mut self.shown, &mut talk.input);
        self.shown_of(b"what the client would still say", wanted);
    }

    // Compares what is left of the devices.
    fn rest_of(&mut self, expected: &Rest, was: &mut Ended) {
        if let Some(next) = expected.next {
            let now = was.devices.place.clock.now();
            self.number_of(b"the moment of the next request", next, now);
        }
        if let Some(left) = expected.left {
            self.left_of(left, &mut was.devices.talk);
        }
        if let Some(records) = expected.records {
            self.records_of(records, table_of(&was.keeper));
        }
        if self.is_none() && expected.closed && !was.closed {
            self.say(b"the history's last entry doesn't close the session");
        }
    }

    // Compares what was told, where that is any matter.
    fn output_of(&mut self, expected: &Expected, talk: &Talk) {
        if let Some(output) = expected.output {
            self.text_of(b"the output", output, talk.output.bytes());
        }
    }

    // Compares what was logged.
    fn log_of(&mut self, expected: &Expected, place: &Place) {
        add_difference(&mut self.text, b"the log", expected.log, place.logs.bytes());
    }

    /// Looks for the first thing but the log in which a run came out otherwise than expected.
    pub(crate) fn compare_unlogged(&mut self, expected: &Expected, was: &mut Ended) {
        let (wanted, status) = (u64::from(expected.status), u64::from(was.status));
        self.number_of(b"the status", wanted, status);
        self.output_of(expected, &was.devices.talk);
        self.called_of(&expected.called, &was.devices.helpers);
        self.rest_of(&expected.rest, was);
    }

    /// Looks for the first thing in which a run came out otherwise than expected.
    pub(crate) fn compare(&mut self, expected: &Expected, was: &mut Ended) {
        let (wanted, status) = (u64::from(expected.status), u64::from(was.status));
        self.number_of(b"the status", wanted, status);
        self.output_of(expected, &was.devices.talk);
        self.log_of(expected, &was.devices.place);
        self.called_of(&expected.called, &was.devices.helpers);
        self.rest_of(&expected.rest, was);
    }
}
