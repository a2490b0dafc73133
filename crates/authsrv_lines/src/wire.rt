ghost use Rattle.std.specs.Prelude.{◌≡◌};
ghost use Rattle.authsrv_lines.specs.Fault.{wire_fault_text};

use auth_events::Request;
use fw_types::Name;
use thiserror::Error;

/// What a line asks for.
#[derive(Drop)]
pub enum Wire {
    /// This request.
    Ask(Request),
    /// A new password for the user, of which this is the MD5 digest; its salt is still to be chosen.
    Password { name: Name, hash: [u8; 16] },
    /// The records of all users whom the session may see.
    List,
    /// The end of the session.
    Quit,
}

/// Why a line asks for nothing.
#[derive(Clone, Copy, Debug, PartialEq, Eq, Error)]
pub enum WireFault {
    /// It has more than 512 bytes without its end.
    #[error("long line")]
    LongLine,
    /// It has nothing but blanks.
    #[error("empty line")]
    Empty,
    /// Its first word is no command.
    #[error("unknown command")]
    Unknown,
    /// The command's words are too few or too many, or one is out of form.
    #[error("wrong words")]
    Words,
    /// The name of a user or of a group is not a valid name.
    #[error("bad name")]
    BadName,
}

impl WireFault {
    /// What the client is told, without the line's end.
    pub fn text(self) -> &'static [u8]
        ensures { result.now ≡ wire_fault_text self }
    {
        match self {
            WireFault::LongLine => b"error long line",
            WireFault::Empty => b"error empty line",
            WireFault::Unknown => b"error unknown command",
            WireFault::Words => b"error wrong words",
            WireFault::BadName => b"error bad name",
        }
    }
}
