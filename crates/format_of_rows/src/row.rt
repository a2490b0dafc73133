use crate::keyword::Keyword;
use crate::line::Line;
use crate::section::{Section, place_of};
use crate::values::words_of;
use crate::{Fault, Setting, Trial, Wanted, Why};
use fw_types::Octets;
use std::alloc::Global;

/// A run, or a command line, with what is expected of it.
#[derive(Drop)]
pub struct Row {
    pub name: Octets,
    /// What the run meets.
    pub setting: Setting,
    /// What fails, and how it is cut.
    pub trial: Trial,
    /// What is expected.
    pub wanted: Wanted,
}

impl Row {
    fn new(alloc: Global, name: &[u8]) -> Result<Row, Why> {
        match Octets::copy(alloc, name) {
            Ok(name) => Ok(Row {
                name,
                setting: Setting::new(alloc)?,
                trial: Trial::new(alloc),
                wanted: Wanted::new(alloc),
            }),
            Err(_) => Err(Why::NoMemory),
        }
    }

    fn sit_at_console(&mut self, alloc: Global, said: &[u8]) -> Result<(), Why> {
        self.setting.words = words_of(alloc, b"authsrv -console 127.0.0.1")?;
        self.setting.client.extend_from_slice(said)?;
        self.trial.untimed = true;
        self.wanted.want_ease(said)
    }

    /// A run at the server's console that says these lines, with an empty table, and is answered `ok` to each. The moments of
    /// its requests are no matter.
    pub fn console(alloc: Global, said: &[u8]) -> Result<Row, Why> {
        let mut row = Row::new(alloc, b"console")?;
        row.sit_at_console(alloc, said)?;
        Ok(row)
    }

    fn add_after(&mut self, earlier: &[Section], name: &[u8]) -> Result<(), Why> {
        match place_of(earlier, name) {
            Some(place) => {
                self.setting.after = Some(place);
                Ok(())
            }
            None => Err(Why::UnknownRow),
        }
    }

    fn add(&mut self, alloc: Global, earlier: &[Section], line: &Line) -> Result<(), Why> {
        match line.keyword {
            Keyword::Row | Keyword::Like => Ok(()),
            Keyword::After => self.add_after(earlier, line.text),
            Keyword::Fails
            | Keyword::Idle
            | Keyword::Room
            | Keyword::Piece
            | Keyword::Sweep
            | Keyword::Paced => self.trial.add(alloc, line),
            Keyword::Output
            | Keyword::OutputPart
            | Keyword::Log
            | Keyword::LogPart
            | Keyword::Started
            | Keyword::NoneStarted
            | Keyword::Asked
            | Keyword::NoneAsked
            | Keyword::Given
            | Keyword::GivenPart
            | Keyword::GivenLink
            | Keyword::HungUp
            | Keyword::RemoteGiven
            | Keyword::RemoteGivenPart
            | Keyword::Status
            | Keyword::Untaken
            | Keyword::Unchanged
            | Keyword::Closed
            | Keyword::Keeper
            | Keyword::Command
            | Keyword::TableName
            | Keyword::RecordsName
            | Keyword::RemoteName => self.wanted.add(alloc, line),
            _ => self.setting.add(alloc, line),
        }
    }

    fn add_all(&mut self, alloc: Global, earlier: &[Section], lines: &[Line]) -> Result<(), Fault> {
        for line in lines {
            if let Err(why) = self.add(alloc, earlier, line) {
                return Err(why.at(line.number));
            }
        }
        Ok(())
    }

    /// The row that these lines make, where all that they take over stands among them.
    pub(crate) fn of(alloc: Global, section: &Section, earlier: &[Section]) -> Result<Row, Fault> {
        let mut row = match Row::new(alloc, section.name) {
            Ok(row) => row,
            Err(why) => return Err(why.at(section.number)),
        };
        row.add_all(alloc, earlier, &section.lines)?;
        if !row.wanted.is_complete() {
            return Err(Why::NoStatus.at(section.number));
        }
        Ok(row)
    }
}
