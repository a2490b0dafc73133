/// What a line of a row is about.
#[derive(Clone, Copy, PartialEq, Eq)]
pub(crate) enum Keyword {
    Row,
    Like,
    Words,
    File,
    Table,
    TablePart,
    NoTable,
    After,
    Stored,
    Console,
    ConsoleRun,
    Moments,
    Client,
    ClientPart,
    Limit,
    Link,
    Data,
    Door,
    Server,
    ServerPart,
    Remote,
    RemotePart,
    Ends,
    Fails,
    Idle,
    Room,
    Piece,
    Sweep,
    Paced,
    Output,
    OutputPart,
    Log,
    LogPart,
    Started,
    NoneStarted,
    Asked,
    NoneAsked,
    Given,
    GivenPart,
    GivenLink,
    HungUp,
    RemoteGiven,
    RemoteGivenPart,
    Status,
    Untaken,
    Unchanged,
    Closed,
    Keeper,
    Command,
    TableName,
    RecordsName,
    RemoteName,
}

const KEYWORDS: &[(&str, Keyword)] = &[
    ("row", Keyword::Row),
    ("like", Keyword::Like),
    ("words", Keyword::Words),
    ("file", Keyword::File),
    ("table", Keyword::Table),
    ("table-part", Keyword::TablePart),
    ("no-table", Keyword::NoTable),
    ("after", Keyword::After),
    ("stored", Keyword::Stored),
    ("console", Keyword::Console),
    ("console-run", Keyword::ConsoleRun),
    ("moments", Keyword::Moments),
    ("client", Keyword::Client),
    ("client-part", Keyword::ClientPart),
    ("limit", Keyword::Limit),
    ("link", Keyword::Link),
    ("data", Keyword::Data),
    ("door", Keyword::Door),
    ("server", Keyword::Server),
    ("server-part", Keyword::ServerPart),
    ("remote", Keyword::Remote),
    ("remote-part", Keyword::RemotePart),
    ("ends", Keyword::Ends),
    ("fails", Keyword::Fails),
    ("idle", Keyword::Idle),
    ("room", Keyword::Room),
    ("piece", Keyword::Piece),
    ("sweep", Keyword::Sweep),
    ("paced", Keyword::Paced),
    ("output", Keyword::Output),
    ("output-part", Keyword::OutputPart),
    ("log", Keyword::Log),
    ("log-part", Keyword::LogPart),
    ("started", Keyword::Started),
    ("started-none", Keyword::NoneStarted),
    ("asked", Keyword::Asked),
    ("asked-none", Keyword::NoneAsked),
    ("given", Keyword::Given),
    ("given-part", Keyword::GivenPart),
    ("given-link", Keyword::GivenLink),
    ("hung-up", Keyword::HungUp),
    ("remote-given", Keyword::RemoteGiven),
    ("remote-given-part", Keyword::RemoteGivenPart),
    ("status", Keyword::Status),
    ("untaken", Keyword::Untaken),
    ("unchanged", Keyword::Unchanged),
    ("closed", Keyword::Closed),
    ("keeper", Keyword::Keeper),
    ("command", Keyword::Command),
    ("table-name", Keyword::TableName),
    ("records-name", Keyword::RecordsName),
    ("remote-name", Keyword::RemoteName),
];

impl Keyword {
    /// The keyword that is spelt so.
    pub(crate) fn read(word: &[u8]) -> Option<Keyword> {
        for (spelling, keyword) in KEYWORDS {
            if spelling.as_bytes() == word {
                return Some(*keyword);
            }
        }
        None
    }

    /// The first of the keywords that say one thing together: a row that gives one of them anew gives that anew.
    pub(crate) fn family(self) -> Keyword {
        match self {
            Keyword::File | Keyword::TablePart | Keyword::NoTable => Keyword::Table,
            Keyword::Stored | Keyword::Console | Keyword::ConsoleRun => Keyword::After,
            Keyword::ClientPart => Keyword::Client,
            Keyword::OutputPart => Keyword::Output,
            Keyword::LogPart => Keyword::Log,
            Keyword::NoneStarted => Keyword::Started,
            Keyword::Data | Keyword::Server | Keyword::ServerPart => Keyword::Link,
            Keyword::NoneAsked => Keyword::Asked,
            Keyword::RemotePart => Keyword::Remote,
            Keyword::RemoteGivenPart => Keyword::RemoteGiven,
            Keyword::GivenPart | Keyword::GivenLink => Keyword::Given,
            other => other,
        }
    }

    /// Whether it is about those whom a run calls.
    pub(crate) fn is_of_called(self) -> bool {
        matches!(
            self.family(),
            Keyword::Started
                | Keyword::Asked
                | Keyword::Given
                | Keyword::HungUp
                | Keyword::RemoteGiven
        )
    }

    /// Whether a row that is like another one takes over its lines with this keyword.
    pub(crate) fn is_taken_over(self) -> bool {
        !matches!(
            self,
            Keyword::Row | Keyword::Like | Keyword::Sweep | Keyword::Paced | Keyword::Closed
        )
    }

    /// Whether no text follows the keyword.
    pub(crate) fn stands_alone(self) -> bool {
        matches!(
            self,
            Keyword::NoTable
                | Keyword::ConsoleRun
                | Keyword::Paced
                | Keyword::Link
                | Keyword::Data
                | Keyword::NoneStarted
                | Keyword::NoneAsked
                | Keyword::GivenLink
                | Keyword::Untaken
                | Keyword::Unchanged
                | Keyword::Closed
        )
    }
}
