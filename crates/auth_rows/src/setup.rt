//! What a book is opened with.

use crate::fault::{Fault, Line};
use auth_machine::Policy;
use auth_records::{LongName, Otp, Plain, Proto, Record, Seed, Wiz, encode};
use fw_memory::{Calls, MemSource};
use fw_types::{Name, NoMemory, Octets};
use gate_rules::{Rules, Service};
use lines_of_rows::{cut_word, from_hex, number_of, numbers_of};
use md5::{Digest, Md5};
use netperm_table::{Table, TableFault};
use std::alloc::Global;
use std::str;

const SALT: [u8; 8] = [1, 2, 3, 4, 5, 6, 7, 8];

/// What a book is opened with.
#[derive(Drop)]
pub(crate) struct Setup {
    pub(crate) table: Vec<u8>,
    pub(crate) entries: Vec<(Name, Octets)>,
    pub(crate) limit: u64,
    /// The keeper's calls that fail.
    pub(crate) fails: Vec<u64>,
    /// The port's calls that fail.
    pub(crate) port_fails: Vec<u64>,
}

/// The calls at which the keeper fails, and the port.
#[derive(Clone, Copy)]
pub(crate) struct Fails<'a> {
    pub(crate) keeper: &'a [u64],
    pub(crate) port: &'a [u64],
}

fn digest(text: &[u8]) -> [u8; 16] {
    let mut hasher = Md5::new();
    hasher.update(text);
    hasher.finalize()
}

fn plain_of(password: &[u8]) -> Option<Plain> {
    if password == b"-".as_slice() {
        return None;
    }
    let mut hasher = Md5::new();
    hasher.update(&SALT);
    hasher.update(&digest(password));
    Some(Plain {
        salt: SALT,
        hash: hasher.finalize(),
    })
}

fn otp_of(password: &[u8]) -> Option<Otp> {
    if password != b"-".as_slice() {
        return None;
    }
    Some(Otp {
        number: 1,
        word_seed: Seed::read(b"test")?,
        kept: 0x7965_E054_36F5_029F,
    })
}

fn wiz_of(text: &[u8]) -> Option<Wiz> {
    match text {
        b"none" => Some(Wiz::None),
        b"group" => Some(Wiz::Group),
        b"super" => Some(Wiz::Super),
        _ => None,
    }
}

fn group_of(text: &[u8]) -> Option<Name> {
    if text == b"-".as_slice() {
        return None;
    }
    Name::read(text)
}

fn proto_of(password: &[u8]) -> Proto {
    if password == b"-".as_slice() {
        return Proto::Otp;
    }
    Proto::Plain
}

// The record of a line `user`.
fn record_of(text: &[u8]) -> Option<Record> {
    let (name, rest) = cut_word(text);
    let (group, rest) = cut_word(rest);
    let (wiz, rest) = cut_word(rest);
    let (password, long) = cut_word(rest);
    let name = Name::read(name)?;
    let long = LongName::read(long)?;
    let wiz = wiz_of(wiz)?;
    Some(Record {
        name,
        long,
        group: group_of(group),
        proto: proto_of(password),
        enabled: true,
        wiz,
        fails: 0,
        since: 0,
        last: 0,
        expires: 0,
        plain: plain_of(password),
        otp: otp_of(password),
    })
}

// The entry of a line `record`.
fn entry_of(alloc: Global, text: &[u8]) -> Result<Option<(Name, Octets)>, NoMemory> {
    let (name, digits) = cut_word(text);
    let Some(name) = Name::read(name) else {
        return Ok(None);
    };
    let bytes = from_hex(alloc, str::from_utf8(digits).unwrap_or(""))?;
    Ok(Some((name, Octets::of(bytes))))
}

impl Setup {
    /// The calls that fail.
    pub(crate) fn fails(&self) -> Fails<'_> {
        Fails {
            keeper: &self.fails,
            port: &self.port_fails,
        }
    }

    fn user(&mut self, alloc: Global, line: &Line<'_>, text: &[u8]) -> Result<(), Fault> {
        match record_of(text) {
            Some(record) => Ok(self.add_record(alloc, &record)?),
            None => Err(line.differs(b"no user")),
        }
    }

    fn add_record(&mut self, alloc: Global, record: &Record) -> Result<(), NoMemory> {
        let bytes = encode(alloc, record)?;
        self.entries.push((record.name.twin(), bytes))?;
        Ok(())
    }

    fn record(&mut self, alloc: Global, line: &Line<'_>, text: &[u8]) -> Result<(), Fault> {
        match entry_of(alloc, text)? {
            Some(entry) => Ok(self.entries.push(entry)?),
            None => Err(line.differs(b"no name")),
        }
    }

    fn table(&mut self, text: &[u8]) -> Result<(), Fault> {
        self.table.extend_from_slice(text)?;
        self.table.push(b'\n')?;
        Ok(())
    }

    // Takes in a text behind a word.
    fn take_text(&mut self, alloc: Global, line: &Line<'_>, text: &[u8]) -> Result<(), Fault> {
        match line.word() {
            "table" => self.table(text),
            "user" => self.user(alloc, line, text),
            "record" => self.record(alloc, line, text),
            "limit" => {
                self.limit = number_of(text);
                Ok(())
            }
            "fails" => set_numbers(alloc, &mut self.fails, text),
            "port-fails" => set_numbers(alloc, &mut self.port_fails, text),
            _ => Ok(()),
        }
    }

    // Takes a line in.
    fn take(&mut self, alloc: Global, line: &Line<'_>) -> Result<(), Fault> {
        let text = line.rest(alloc)?;
        self.take_text(alloc, line, &text)
    }
}

fn set_numbers(alloc: Global, numbers: &mut Vec<u64>, text: &[u8]) -> Result<(), Fault> {
    *numbers = numbers_of(alloc, text)?;
    Ok(())
}

fn take_all(alloc: Global, lines: &[Line<'_>], setup: &mut Setup) -> Result<(), Fault> {
    for line in lines {
        setup.take(alloc, line)?;
    }
    Ok(())
}

/// What the lines of a scene begin with.
pub(crate) fn setup_of(alloc: Global, lines: &[Line<'_>]) -> Result<Setup, Fault> {
    let mut setup = Setup {
        table: Vec::new(alloc),
        entries: Vec::new(alloc),
        limit: 1000,
        fails: Vec::new(alloc),
        port_fails: Vec::new(alloc),
    };
    match take_all(alloc, lines, &mut setup) {
        Ok(()) => Ok(setup),
        Err(fault) => {
            drop(setup);
            Err(fault)
        }
    }
}

fn read_table(alloc: Global, text: &[u8]) -> Result<Table, TableFault> {
    let bytes = Octets::copy(alloc, text)?;
    let mut source = MemSource::new(bytes, 64, Calls::none(), Calls::none());
    let table = Table::read(alloc, &mut source);
    drop(source);
    table
}

/// The policy of a table's text, if it has one.
pub(crate) fn policy_of(alloc: Global, text: &[u8]) -> Option<Policy> {
    match read_table(alloc, text) {
        Ok(table) => Policy::of(alloc, &table).ok(),
        Err(_) => None,
    }
}

/// The rules of the Telnet gateway in a table's text, if they can be read.
pub(crate) fn rules_of(alloc: Global, text: &[u8]) -> Option<Rules> {
    match read_table(alloc, text) {
        Ok(table) => Rules::of(alloc, &table, &Service::TnGw).ok(),
        Err(_) => None,
    }
}
