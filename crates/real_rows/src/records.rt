//! Records in a file.

use crate::system::{System, path_of};
use crate::telling::{tell_bytes, tell_done, tell_unknown};
use fw_outside::{KeepFault, Keeper};
use fw_real::Records;
use fw_types::{Name, Octets};
use lines_of_rows::{Told, add_word, cut_word};
use sqlite::{Connection, Error, ErrorCode};
use std::mem::replace;

fn tell_kept(answer: Result<(), KeepFault>, out: &mut Told) {
    match answer {
        Ok(()) => add_word(out, b"ok"),
        Err(KeepFault::Failed) => add_word(out, b"failed"),
        Err(_) => add_word(out, b"no memory"),
    }
}

fn put(records: &mut Records, name: &Name, bytes: &[u8]) -> Result<(), KeepFault> {
    records.put(name, bytes)
}

fn drop_name(records: &mut Records, name: &Name) -> Result<(), KeepFault> {
    records.drop_name(name)
}

fn load(records: &mut Records) -> Result<Vec<(Name, Octets)>, KeepFault> {
    records.load()
}

fn tell_entries(entries: &[(Name, Octets)], out: &mut Told) {
    for entry in entries {
        add_word(out, entry.0.text());
        tell_bytes(entry.1.bytes(), out);
    }
}

fn tell_loaded(records: &mut Records, out: &mut Told) {
    match load(records) {
        Ok(loaded) => tell_entries(loaded.as_slice(), out),
        Err(fault) => tell_kept(Err(fault), out),
    }
}

// `put NAME BYTES`, `drop NAME` or `load`.
fn use_records(records: &mut Records, word: &[u8], rest: &[u8], out: &mut Told) {
    let (name, bytes) = cut_word(rest);
    match (word, Name::read(name)) {
        (b"put", Some(name)) => tell_kept(put(records, &name, bytes), out),
        (b"drop", Some(name)) => tell_kept(drop_name(records, &name), out),
        (b"load", _) => tell_loaded(records, out),
        _ => tell_unknown(out),
    }
}

// Makes a database of other rows.
fn make(rt: &HostRuntime, path: &str, text: &str) -> Result<(), Error> {
    let mut connection = Connection::open(rt, path)?;
    match connection.execute_batch(text) {
        Ok(()) => connection.close(),
        Err(error) => {
            drop(connection);
            Err(error)
        }
    }
}

// Whether another has the file open.
fn is_locked(rt: &HostRuntime, path: &str) -> bool {
    match Connection::open(rt, path) {
        Err(error) => error == Error::SqliteFailure(ErrorCode::DatabaseBusy),
        Ok(connection) => {
            drop(connection);
            false
        }
    }
}

fn tell_locked(rt: &HostRuntime, path: &str, out: &mut Told) {
    if is_locked(rt, path) {
        add_word(out, b"locked");
    } else {
        add_word(out, b"unlocked");
    }
}

fn records_at(rt: HostRuntime, path: &[u8]) -> Option<Records> {
    Records::new(rt, path).ok()
}

// The records `a` and `b`.
#[derive(Drop)]
struct Keepers {
    rt: HostRuntime,
    system: System,
    a: Option<Records>,
    b: Option<Records>,
}

impl Keepers {
    fn set(&mut self, name: &[u8], records: Option<Records>) {
        let place = match name {
            b"a" => &mut self.a,
            _ => &mut self.b,
        };
        drop(replace(place, records));
    }

    fn use_keeper(&mut self, word: &[u8], name: &[u8], rest: &[u8], out: &mut Told) {
        let records = match name {
            b"a" => &mut self.a,
            _ => &mut self.b,
        };
        match records {
            Some(records) => use_records(records, word, rest, out),
            None => add_word(out, b"no records"),
        }
    }

    // `WORD NAME REST`, or a step with a file: `files WORD REST`, `sql PATH TEXT`, `lock PATH`.
    fn step(&mut self, step: &[u8], out: &mut Told) {
        let (word, behind) = cut_word(step);
        let (name, rest) = cut_word(behind);
        match word {
            b"have" => self.set(name, records_at(self.rt, rest)),
            b"close" => self.set(name, None),
            b"sql" => tell_done(make(&self.rt, path_of(name), path_of(rest)).is_ok(), out),
            b"lock" => tell_locked(&self.rt, path_of(name), out),
            b"files" => self.system.step(name, rest, out),
            _ => self.use_keeper(word, name, rest, out),
        }
    }
}

/// `records STEP|STEP|.. => ANSWERS`.
pub(crate) fn tell_records(rt: HostRuntime, asked: &[u8], out: &mut Told) {
    let mut keepers = Keepers {
        rt,
        system: System::new(rt),
        a: None,
        b: None,
    };
    for step in asked.split(|byte| *byte == b'|') {
        keepers.step(step, out);
    }
    drop(keepers);
}
