//! What is expected of a run.

use crate::Why;
use crate::escapes::{add_unescaped, unescaped};
use crate::keyword::Keyword;
use crate::line::Line;
use crate::values::{number_of, record_of, status_of};
use fw_types::{Name, Octets};
use std::alloc::Global;

/// What the words are read as, for a row that isn't run.
#[derive(Drop)]
pub struct Reading {
    /// The command with its service and peer, or `none`.
    pub command: Option<Vec<u8>>,
    /// The table's name, where the words give one.
    pub table: Option<Vec<u8>>,
    /// The records' name, where the words give one.
    pub records: Option<Vec<u8>>,
    /// The authentication server elsewhere, where the words give one.
    pub remote: Option<Vec<u8>>,
}

/// What is expected of those whom a run calls.
#[derive(Drop)]
pub struct Called {
    /// The programs that are started, each with its arguments in a line.
    pub started: Vec<u8>,
    /// The destinations that are asked for, each in a line.
    pub asked: Vec<u8>,
    /// What servers are given, one behind the other.
    pub given: Vec<u8>,
    /// Where what a link is given ends in that, but for the last one; no place where nothing is said of it.
    pub ends: Vec<usize>,
    /// How many links are hung up.
    pub hung_up: u64,
    /// What an authentication server elsewhere is given.
    pub remote: Vec<u8>,
}

/// What is expected of a run.
#[derive(Drop)]
pub struct Wanted {
    /// All that is printed or told to the client.
    pub output: Vec<u8>,
    /// The whole log.
    pub log: Vec<u8>,
    pub called: Called,
    pub status: Option<u8>,
    /// Whether nothing is taken from the client.
    pub untaken: bool,
    /// Whether the keeper has the records that it had.
    pub unchanged: bool,
    /// Whether the last entry of the history closes its first session.
    pub closed: bool,
    /// The records that the keeper has afterwards, in order.
    pub keeper: Option<Vec<(Name, Octets)>>,
    pub reading: Reading,
}

impl Reading {
    fn new() -> Reading {
        Reading {
            command: None,
            table: None,
            records: None,
            remote: None,
        }
    }
}

impl Called {
    fn new(alloc: Global) -> Called {
        Called {
            started: Vec::new(alloc),
            asked: Vec::new(alloc),
            given: Vec::new(alloc),
            ends: Vec::new(alloc),
            hung_up: 0,
            remote: Vec::new(alloc),
        }
    }

    // Adds a line about links.
    fn add_link_line(&mut self, alloc: Global, line: &Line) -> Result<(), Why> {
        match line.keyword {
            Keyword::Asked => add_unescaped(alloc, &mut self.asked, line.text, b"\n"),
            Keyword::Given => add_unescaped(alloc, &mut self.given, line.text, b"\r\n"),
            Keyword::GivenPart => add_unescaped(alloc, &mut self.given, line.text, b""),
            Keyword::RemoteGiven => add_unescaped(alloc, &mut self.remote, line.text, b"\n"),
            Keyword::RemoteGivenPart => add_unescaped(alloc, &mut self.remote, line.text, b""),
            Keyword::GivenLink => {
                self.ends.push(self.given.len())?;
                Ok(())
            }
            Keyword::HungUp => {
                self.hung_up = number_of(line.text)?;
                Ok(())
            }
            _ => Ok(()),
        }
    }

    // Adds a line about those whom the run calls.
    fn add(&mut self, alloc: Global, line: &Line) -> Result<(), Why> {
        match line.keyword {
            Keyword::NoneStarted => Ok(()),
            Keyword::Started => add_unescaped(alloc, &mut self.started, line.text, b"\n"),
            _ => self.add_link_line(alloc, line),
        }
    }
}

impl Wanted {
    pub(crate) fn new(alloc: Global) -> Wanted {
        Wanted {
            output: Vec::new(alloc),
            log: Vec::new(alloc),
            called: Called::new(alloc),
            status: None,
            untaken: false,
            unchanged: false,
            closed: false,
            keeper: None,
            reading: Reading::new(),
        }
    }

    /// What is expected of a run at the console that says these lines.
    pub(crate) fn want_ease(&mut self, said: &[u8]) -> Result<(), Why> {
        self.status = Some(0);
        self.log
            .extend_from_slice(b"end authsrv unknown/127.0.0.1 done\n")?;
        self.output.extend_from_slice(b"authsrv ready\n")?;
        for byte in said {
            if *byte == b'\n' {
                self.output.extend_from_slice(b"ok\n")?;
            }
        }
        Ok(())
    }

    /// Whether the row says what its run or its words come to.
    pub(crate) fn is_complete(&self) -> bool {
        self.status.is_some() || self.reading.command.is_some()
    }

    fn add_record(&mut self, alloc: Global, text: &[u8]) -> Result<(), Why> {
        let record = record_of(alloc, text)?;
        match &mut self.keeper {
            Some(records) => records.push(record)?,
            None => {
                let mut records = Vec::new(alloc);
                records.push(record)?;
                self.keeper = Some(records);
            }
        }
        Ok(())
    }

    // Adds a line about how the words are read.
    fn add_reading(&mut self, alloc: Global, line: &Line) -> Result<(), Why> {
        let text = unescaped(alloc, line.text)?;
        match line.keyword {
            Keyword::TableName => self.reading.table = Some(text),
            Keyword::RecordsName => self.reading.records = Some(text),
            Keyword::RemoteName => self.reading.remote = Some(text),
            _ => self.reading.command = Some(text),
        }
        Ok(())
    }

    // Adds a line about what is left.
    fn add_rest(&mut self, alloc: Global, line: &Line) -> Result<(), Why> {
        match line.keyword {
            Keyword::Status => self.status = Some(status_of(line.text)?),
            Keyword::Untaken => self.untaken = true,
            Keyword::Unchanged => self.unchanged = true,
            Keyword::Closed => self.closed = true,
            Keyword::Keeper => self.add_record(alloc, line.text)?,
            _ => self.add_reading(alloc, line)?,
        }
        Ok(())
    }

    /// Adds a line of a row about what is expected.
    pub(crate) fn add(&mut self, alloc: Global, line: &Line) -> Result<(), Why> {
        match line.keyword {
            Keyword::Output => add_unescaped(alloc, &mut self.output, line.text, b"\n"),
            Keyword::OutputPart => add_unescaped(alloc, &mut self.output, line.text, b""),
            Keyword::Log => add_unescaped(alloc, &mut self.log, line.text, b"\n"),
            Keyword::LogPart => add_unescaped(alloc, &mut self.log, line.text, b""),
            keyword if keyword.is_of_called() => self.called.add(alloc, line),
            _ => self.add_rest(alloc, line),
        }
    }
}
