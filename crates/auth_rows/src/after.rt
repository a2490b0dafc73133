//! What is there after a scene.

use crate::asking::{Row, row_of};
use crate::fault::{Fault, Line, check};
use crate::stage::{Stage, load};
use auth_events::{Entry, Request};
use auth_machine::OpenFault;
use fw_types::{Name, Octets};
use lines_of_rows::{Told, add, add_hex, add_number, add_word, cut_word, number_of, numbers_of};
use std::alloc::Global;

/// What is there after a scene.
#[derive(Drop)]
pub(crate) struct After {
    /// Why the book wasn't opened, or nothing.
    pub(crate) opening: Told,
    pub(crate) history: Vec<Entry>,
    /// What the keeper has.
    pub(crate) loaded: Vec<(Name, Octets)>,
}

/// Why a book wasn't opened.
pub(crate) fn told_fault(fault: &OpenFault) -> Told {
    let mut told = Told::new();
    match fault {
        OpenFault::LoadFault => add(&mut told, b"load"),
        OpenFault::NoMemory => add(&mut told, b"no memory"),
        OpenFault::BadRecord { name, at } => {
            add(&mut told, name.text());
            add_number(&mut told, *at as u64);
        }
    }
    told
}

// Tells a response or a new password, as a line `response` or `password` says it behind the place.
fn told_entry(entry: &Entry) -> Told {
    let mut told = Told::new();
    match &entry.request {
        Request::Response { hash, word } => {
            add_hex(&mut told, hash);
            match word {
                Some(word) => add_hex(&mut told, &word.to_be_bytes()),
                None => add_word(&mut told, b"-"),
            }
        }
        Request::Password { name, salt, hash } => {
            add(&mut told, name.text());
            add_hex(&mut told, salt);
            add_hex(&mut told, hash);
        }
        _ => add(&mut told, b"another request"),
    }
    told
}

// Whether the line's word is that of the request.
fn is_kind(line: &Line<'_>, entry: &Entry) -> bool {
    match &entry.request {
        Request::Response { .. } => line.word() == "response",
        Request::Password { .. } => line.word() == "password",
        _ => false,
    }
}

/// Whether these are the moments of the entries, all of this session.
fn are_at(history: &[Entry], sid: u64, moments: &[u64]) -> bool {
    if history.len() != moments.len() {
        return false;
    }
    for (entry, moment) in history.iter().zip(moments) {
        if entry.sid != sid || entry.at != *moment {
            return false;
        }
    }
    true
}

/// Whether the last request is the Close of this session.
pub(crate) fn is_closed(history: &[Entry], sid: u64) -> bool {
    match history.last() {
        Some(last) => last.sid == sid && matches!(&last.request, Request::Close),
        None => false,
    }
}

// Whether the lines say why the book isn't opened.
fn says_unopened(lines: &[Line<'_>]) -> bool {
    for line in lines {
        if line.word() == "unopened" {
            return true;
        }
    }
    false
}

fn told_moments(history: &[Entry]) -> Told {
    let mut told = Told::new();
    for entry in history {
        add_number(&mut told, entry.at);
    }
    told
}

// Compares the entry of a request that was asked with what the line says.
fn compare_asked(line: &Line<'_>, row: &Row, entry: &Entry, place: u64) -> Result<(), Fault> {
    let sid = if row.opens() { place } else { row.sid };
    check(line, entry.sid == sid, b"another session in the history")?;
    check(line, entry.at == row.at, b"another moment in the history")?;
    check(
        line,
        row.is_told(&entry.reply),
        b"another reply in the history",
    )?;
    check(line, entry.kept != row.is_unkept(), b"kept otherwise")
}

impl After {
    /// What is there when the book is closed.
    pub(crate) fn of(alloc: Global, stage: Stage) -> After {
        let (keeper, history) = stage.close();
        After {
            opening: Told::new(),
            history,
            loaded: load(alloc, keeper),
        }
    }

    fn compare_moments(&self, alloc: Global, line: &Line<'_>) -> Result<(), Fault> {
        let text = line.rest(alloc)?;
        let (sid, moments) = cut_word(&text);
        let moments = numbers_of(alloc, moments)?;
        let is_so = are_at(&self.history, number_of(sid), &moments);
        check(line, is_so, told_moments(&self.history).as_slice())
    }

    fn compare_close(&self, alloc: Global, line: &Line<'_>) -> Result<(), Fault> {
        let text = line.rest(alloc)?;
        let is_so = is_closed(&self.history, number_of(&text));
        check(line, is_so, b"the session isn't closed")
    }

    // Compares the entry at a place.
    fn compare_entry(&self, alloc: Global, line: &Line<'_>) -> Result<(), Fault> {
        let text = line.rest(alloc)?;
        let (place, says) = cut_word(&text);
        let Some(entry) = self.history.get(number_of(place) as usize) else {
            return Err(line.differs(b"no such entry"));
        };
        let told = told_entry(entry);
        let is_so = is_kind(line, entry) && told.as_slice() == says;
        check(line, is_so, told.as_slice())
    }

    // Compares the entry of a request that was asked, by its place.
    fn compare_row(&self, alloc: Global, line: &Line<'_>, place: u64) -> Result<(), Fault> {
        let row = row_of(alloc, line)?;
        match self.history.get(place as usize) {
            Some(entry) => compare_asked(line, &row, entry, place),
            None => Err(line.differs(b"no entry")),
        }
    }

    // Compares the history with the requests.
    fn compare_rows(
        &self,
        alloc: Global,
        line: &Line<'_>,
        lines: &[Line<'_>],
    ) -> Result<(), Fault> {
        let mut place = 0u64;
        for row in lines {
            if row.is_row() && !row.is_unanswered() {
                self.compare_row(alloc, row, place)?;
                place = place.saturating_add(1);
            }
        }
        check(line, self.history.len() as u64 == place, b"more entries")
    }

    // Compares what the keeper has at a place.
    fn compare_kept(&self, alloc: Global, line: &Line<'_>, place: usize) -> Result<(), Fault> {
        let text = line.rest(alloc)?;
        let mut told = Told::new();
        if let Some(entry) = self.loaded.get(place) {
            add(&mut told, entry.0.text());
            add_hex(&mut told, entry.1.bytes());
        }
        check(line, told.as_slice() == text.as_slice(), told.as_slice())
    }

    // Compares why the book wasn't opened.
    fn compare_reason(&self, alloc: Global, line: &Line<'_>) -> Result<(), Fault> {
        let says = line.rest(alloc)?;
        let opening = self.opening.as_slice();
        check(line, opening == says.as_slice(), opening)
    }

    // Compares a line other than `keeps`.
    fn compare_line(
        &self,
        alloc: Global,
        line: &Line<'_>,
        lines: &[Line<'_>],
    ) -> Result<(), Fault> {
        match line.word() {
            "asked" => self.compare_rows(alloc, line, lines),
            "moments" => self.compare_moments(alloc, line),
            "closed" => self.compare_close(alloc, line),
            "response" => self.compare_entry(alloc, line),
            "password" => self.compare_entry(alloc, line),
            "unopened" => self.compare_reason(alloc, line),
            _ => Ok(()),
        }
    }

    // Where the book wasn't opened, a scene says so.
    fn compare_opening(&self, lines: &[Line<'_>]) -> Result<(), Fault> {
        let is_told = says_unopened(lines);
        match lines.first() {
            Some(line) => check(
                line,
                is_told || self.opening.is_empty(),
                self.opening.as_slice(),
            ),
            None => Ok(()),
        }
    }

    // Where the keeper has something, all that it has is said or nothing.
    fn compare_count(&self, line: &Line<'_>, kept: usize) -> Result<(), Fault> {
        let is_so = kept == 0 || kept == self.loaded.len();
        check(line, is_so, b"other records are kept")
    }

    // Compares each line, and counts those that say what is kept.
    fn compare_lines(&self, alloc: Global, lines: &[Line<'_>]) -> Result<usize, Fault> {
        let mut kept = 0usize;
        for line in lines {
            if line.word() == "keeps" {
                self.compare_kept(alloc, line, kept)?;
                kept = kept.saturating_add(1);
            } else {
                self.compare_line(alloc, line, lines)?;
            }
        }
        Ok(kept)
    }

    /// Compares what is there with what the lines say.
    pub(crate) fn compare(&self, alloc: Global, lines: &[Line<'_>]) -> Result<(), Fault> {
        self.compare_opening(lines)?;
        let kept = self.compare_lines(alloc, lines)?;
        match lines.first() {
            Some(line) => self.compare_count(line, kept),
            None => Ok(()),
        }
    }
}
