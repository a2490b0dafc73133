//! What a run meets.

use crate::Why;
use crate::escapes::{add_unescaped, unescaped};
use crate::keyword::Keyword;
use crate::line::Line;
use crate::values::{add_numbers, add_statuses, number_of, place_of, record_of, words_of};
use fw_types::{Name, Octets};
use std::alloc::Global;

/// The name of the table that is read where the command line names none.
pub const TABLE: &str = "/usr/local/etc/netperm-table";

/// A file with its name.
#[derive(Drop)]
pub struct File {
    pub name: Vec<u8>,
    pub bytes: Vec<u8>,
}

/// A link that comes up.
#[derive(Drop)]
pub struct Link {
    /// What is said at its other end.
    pub said: Vec<u8>,
    /// Whether it is a data link.
    pub is_data: bool,
}

/// What a run meets.
#[derive(Drop)]
pub struct Setting {
    /// The command line.
    pub words: Vec<Octets>,
    /// The files that there are.
    pub files: Vec<File>,
    /// The place of the earlier row over whose records this one runs.
    pub after: Option<usize>,
    /// What the keeper has at first.
    pub stored: Vec<(Name, Octets)>,
    /// What is said at the console before, each in a run of its own.
    pub console: Vec<Vec<u8>>,
    /// The moments of all requests.
    pub moments: Vec<u64>,
    /// What the client says.
    pub client: Vec<u8>,
    /// So many requests fit in the history, where not as many as ever fit.
    pub limit: Option<u64>,
    /// The links, in the order in which they come up.
    pub links: Vec<Link>,
    /// What an authentication server elsewhere says, where there is one.
    pub remote: Option<Vec<u8>>,
    /// The doors that can be opened, in order, each with its address and port.
    pub doors: Vec<([u8; 4], u16)>,
    /// The statuses with which programs end, in the order in which they are started; 0 past these.
    pub ends: Vec<u8>,
}

// The file that there is unless the row says otherwise.
fn usual_files(alloc: Global) -> Result<Vec<File>, Why> {
    let mut files = Vec::new(alloc);
    files.push(File {
        name: Vec::from_slice(alloc, TABLE.as_bytes())?,
        bytes: Vec::new(alloc),
    })?;
    Ok(files)
}

impl Setting {
    pub(crate) fn new(alloc: Global) -> Result<Setting, Why> {
        Ok(Setting {
            words: Vec::new(alloc),
            files: usual_files(alloc)?,
            after: None,
            stored: Vec::new(alloc),
            console: Vec::new(alloc),
            moments: Vec::new(alloc),
            client: Vec::new(alloc),
            limit: None,
            links: Vec::new(alloc),
            remote: None,
            doors: Vec::new(alloc),
            ends: Vec::new(alloc),
        })
    }

    fn begin_file(&mut self, alloc: Global, name: &[u8]) -> Result<(), Why> {
        self.files.push(File {
            name: unescaped(alloc, name)?,
            bytes: Vec::new(alloc),
        })?;
        Ok(())
    }

    fn add_table(&mut self, alloc: Global, text: &[u8], end: &[u8]) -> Result<(), Why> {
        match self.files.last_mut() {
            Some(file) => add_unescaped(alloc, &mut file.bytes, text, end),
            None => Err(Why::UnknownKeyword),
        }
    }

    fn begin_console(&mut self, alloc: Global) -> Result<(), Why> {
        self.console.push(Vec::new(alloc))?;
        Ok(())
    }

    fn add_console(&mut self, alloc: Global, text: &[u8]) -> Result<(), Why> {
        if self.console.is_empty() {
            self.begin_console(alloc)?;
        }
        match self.console.last_mut() {
            Some(said) => add_unescaped(alloc, said, text, b"\r\n"),
            None => Err(Why::NoMemory),
        }
    }

    fn begin_link(&mut self, alloc: Global, is_data: bool) -> Result<(), Why> {
        self.links.push(Link {
            said: Vec::new(alloc),
            is_data,
        })?;
        Ok(())
    }

    fn add_door(&mut self, text: &[u8]) -> Result<(), Why> {
        self.doors.push(place_of(text)?)?;
        Ok(())
    }

    fn add_server(&mut self, alloc: Global, text: &[u8], end: &[u8]) -> Result<(), Why> {
        if self.links.is_empty() {
            self.begin_link(alloc, false)?;
        }
        match self.links.last_mut() {
            Some(link) => add_unescaped(alloc, &mut link.said, text, end),
            None => Err(Why::NoMemory),
        }
    }

    // Adds a line that an authentication server elsewhere says.
    fn add_remote(&mut self, alloc: Global, line: &Line) -> Result<(), Why> {
        let end: &[u8] = match line.keyword {
            Keyword::Remote => b"\n",
            _ => b"",
        };
        let mut said = self.remote.take().unwrap_or(Vec::new(alloc));
        add_unescaped(alloc, &mut said, line.text, end)?;
        self.remote = Some(said);
        Ok(())
    }

    // Adds a line about the servers.
    fn add_link_line(&mut self, alloc: Global, line: &Line) -> Result<(), Why> {
        match line.keyword {
            Keyword::Server => self.add_server(alloc, line.text, b"\r\n"),
            Keyword::ServerPart => self.add_server(alloc, line.text, b""),
            _ => self.begin_link(alloc, line.keyword == Keyword::Data),
        }
    }

    // Adds a line about the files.
    fn add_file_line(&mut self, alloc: Global, line: &Line) -> Result<(), Why> {
        match line.keyword {
            Keyword::File => self.begin_file(alloc, line.text),
            Keyword::Table => self.add_table(alloc, line.text, b"\n"),
            Keyword::TablePart => self.add_table(alloc, line.text, b""),
            _ => {
                self.files.clear();
                Ok(())
            }
        }
    }

    // Adds a line about the records.
    fn add_record_line(&mut self, alloc: Global, line: &Line) -> Result<(), Why> {
        match line.keyword {
            Keyword::Stored => {
                self.stored.push(record_of(alloc, line.text)?)?;
                Ok(())
            }
            Keyword::ConsoleRun => self.begin_console(alloc),
            Keyword::Console => self.add_console(alloc, line.text),
            _ => Ok(()),
        }
    }

    /// Adds a line of a row about what the run meets.
    pub(crate) fn add(&mut self, alloc: Global, line: &Line) -> Result<(), Why> {
        match line.keyword.family() {
            Keyword::Words => {
                self.words = words_of(alloc, line.text)?;
                Ok(())
            }
            Keyword::Table => self.add_file_line(alloc, line),
            Keyword::Moments => add_numbers(&mut self.moments, line.text),
            Keyword::Client if line.keyword == Keyword::Client => {
                add_unescaped(alloc, &mut self.client, line.text, b"\r\n")
            }
            Keyword::Client => add_unescaped(alloc, &mut self.client, line.text, b""),
            Keyword::Limit => {
                self.limit = Some(number_of(line.text)?);
                Ok(())
            }
            Keyword::Link => self.add_link_line(alloc, line),
            Keyword::Door => self.add_door(line.text),
            Keyword::Remote => self.add_remote(alloc, line),
            Keyword::Ends => add_statuses(&mut self.ends, line.text),
            _ => self.add_record_line(alloc, line),
        }
    }
}
