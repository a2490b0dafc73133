//! What fails in a run, and how it is cut.

use crate::Why;
use crate::keyword::Keyword;
use crate::line::{Line, split_word};
use crate::values::{add_numbers, number_of, piece_of};
use std::alloc::Global;

/// A way in which a device may fail.
#[derive(Clone, Copy, PartialEq, Eq)]
pub enum Part {
    /// The source of the table fails.
    Table,
    /// Nothing comes of the table's source.
    TableIdle,
    /// The client's source fails.
    Client,
    /// Nothing comes of the client.
    ClientIdle,
    /// The sink of what is printed, or told to the client, fails.
    Output,
    /// There is room for so many bytes in it.
    OutputRoom,
    /// The log fails.
    Log,
    /// There is room for so many bytes in it.
    LogRoom,
    /// The keeper of the records fails.
    Keeper,
    /// The link of the port to the authentication machine fails.
    Port,
    /// A program can't be started.
    Program,
    /// The dialer refuses a destination.
    Dialer,
    /// The source of a server fails.
    Server,
    /// Nothing comes of a server.
    ServerIdle,
    /// The sink of what a server is given fails.
    Given,
    /// There is room for so many bytes in it.
    GivenRoom,
    /// The source of a data link fails.
    Data,
    /// Nothing comes of a data link.
    DataIdle,
    /// The sink of what a data link is given fails.
    DataGiven,
    /// There is room for so many bytes in it.
    DataRoom,
    /// The source of an authentication server elsewhere fails.
    Remote,
    /// Nothing comes of it.
    RemoteIdle,
    /// The sink of what such a server is given fails.
    RemoteGiven,
    /// There is room for so many bytes in it.
    RemoteRoom,
}

const PARTS: &[(Keyword, &str, Part)] = &[
    (Keyword::Fails, "table", Part::Table),
    (Keyword::Fails, "client", Part::Client),
    (Keyword::Fails, "output", Part::Output),
    (Keyword::Fails, "log", Part::Log),
    (Keyword::Fails, "keeper", Part::Keeper),
    (Keyword::Fails, "port", Part::Port),
    (Keyword::Fails, "program", Part::Program),
    (Keyword::Fails, "dialer", Part::Dialer),
    (Keyword::Fails, "server", Part::Server),
    (Keyword::Fails, "given", Part::Given),
    (Keyword::Fails, "data", Part::Data),
    (Keyword::Fails, "data-given", Part::DataGiven),
    (Keyword::Fails, "remote", Part::Remote),
    (Keyword::Fails, "remote-given", Part::RemoteGiven),
    (Keyword::Idle, "table", Part::TableIdle),
    (Keyword::Idle, "client", Part::ClientIdle),
    (Keyword::Idle, "server", Part::ServerIdle),
    (Keyword::Idle, "data", Part::DataIdle),
    (Keyword::Idle, "remote", Part::RemoteIdle),
    (Keyword::Room, "output", Part::OutputRoom),
    (Keyword::Room, "log", Part::LogRoom),
    (Keyword::Room, "given", Part::GivenRoom),
    (Keyword::Room, "data-given", Part::DataRoom),
    (Keyword::Room, "remote-given", Part::RemoteRoom),
];

/// Calls of a device, numbered from 0; for a sink's room the count of bytes.
#[derive(Drop)]
pub enum Times {
    /// These.
    At(Vec<u64>),
    /// This one and all later ones.
    From(u64),
}

/// A part that fails at some of its calls.
#[derive(Drop)]
pub struct Break {
    pub part: Part,
    pub times: Times,
}

/// A device each of whose calls is made to fail in turn.
#[derive(Clone, Copy)]
pub struct Tried {
    pub part: Part,
    /// So many calls are made of it.
    pub calls: u64,
}

/// What fails in a run, and how it is cut.
#[derive(Drop)]
pub struct Trial {
    pub breaks: Vec<Break>,
    /// The most bytes that come at once: the row runs once for each of them.
    pub pieces: Vec<usize>,
    /// The devices whose calls are made to fail in turn.
    pub sweep: Vec<Tried>,
    /// Whether each text that the client is given answers one request, which has its own moment.
    pub paced: bool,
    /// Whether it is no matter how many requests are made.
    pub untimed: bool,
}

fn part_of(keyword: Keyword, device: &[u8]) -> Result<Part, Why> {
    for (given, spelling, part) in PARTS {
        if *given == keyword && spelling.as_bytes() == device {
            return Ok(*part);
        }
    }
    Err(Why::UnknownDevice)
}

fn times_of(alloc: Global, text: &[u8]) -> Result<Times, Why> {
    if let Some(first) = text.strip_suffix(b"..".as_slice()) {
        return Ok(Times::From(number_of(first)?));
    }
    let mut numbers = Vec::new(alloc);
    add_numbers(&mut numbers, text)?;
    Ok(Times::At(numbers))
}

impl Trial {
    pub(crate) fn new(alloc: Global) -> Trial {
        Trial {
            breaks: Vec::new(alloc),
            pieces: Vec::new(alloc),
            sweep: Vec::new(alloc),
            paced: false,
            untimed: false,
        }
    }

    fn add_break(&mut self, alloc: Global, line: &Line) -> Result<(), Why> {
        let (device, text) = split_word(line.text);
        let part = part_of(line.keyword, device)?;
        let times = times_of(alloc, text)?;
        self.breaks.push(Break { part, times })?;
        Ok(())
    }

    fn add_sweep(&mut self, text: &[u8]) -> Result<(), Why> {
        let (device, calls) = split_word(text);
        let part = part_of(Keyword::Fails, device)?;
        let calls = number_of(calls)?;
        self.sweep.push(Tried { part, calls })?;
        Ok(())
    }

    fn add_pieces(&mut self, text: &[u8]) -> Result<(), Why> {
        for word in text.split(|byte| *byte == b' ') {
            self.pieces.push(piece_of(word)?)?;
        }
        Ok(())
    }

    /// Adds a line of a row about what fails and how it is cut.
    pub(crate) fn add(&mut self, alloc: Global, line: &Line) -> Result<(), Why> {
        match line.keyword {
            Keyword::Sweep => self.add_sweep(line.text),
            Keyword::Piece => self.add_pieces(line.text),
            Keyword::Paced => {
                self.paced = true;
                Ok(())
            }
            _ => self.add_break(alloc, line),
        }
    }

    /// When the part fails, where a line of the row says so.
    pub fn times(&self, part: Part) -> Option<&Times> {
        for told in &self.breaks {
            if told.part == part {
                return Some(&told.times);
            }
        }
        None
    }
}
