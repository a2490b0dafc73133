ghost use Rattle.std.specs.Prelude.{◌≡◌, ◌≤◌};

use crate::Denial;
use auth_records::{LongName, Proto, Seed, Wiz};
use fw_types::Name;

/// What is shown of a user's record.
#[derive(Drop)]
pub struct Summary {
    pub name: Name,
    pub group: Option<Name>,
    pub proto: Proto,
    /// Whether the user may log in at all.
    pub enabled: bool,
    pub wiz: Wiz,
    /// Wrong responses since the last right one.
    pub fails: u8,
    /// How many one-time passwords are left: 0 also where there are none.
    pub number: u32,
    /// In seconds, the moment of the last right response; 0 where there was none.
    pub last: u64,
    /// In seconds, the moment from which the user may not log in; 0 for never.
    pub expires: u64,
    /// The name in full.
    pub long: LongName,
    pub ghost fails_range: { fails ≤ 5 },
    pub ghost number_range: { number ≤ 9999 },
}

/// What a request is answered.
#[derive(Drop)]
pub enum Reply {
    /// A session was opened, which has this number.
    Opened { sid: u64 },
    /// The user is to send the password.
    Password,
    /// The user is to send the one-time password of this count (RFC 2289, 6.0).
    Challenge { number: u32, word_seed: Seed },
    Ok,
    Shown(Summary),
    Denied(Denial),
}

fn group_twin(group: &Option<Name>) -> Option<Name>
    ensures { result ≡ group.now }
{
    match group {
        Some(name) => Some(name.twin()),
        None => None,
    }
}

impl Summary {
    /// An equal summary. Takes no memory.
    pub fn twin(&self) -> Summary
        ensures { result ≡ self.now }
    {
        Summary {
            name: self.name.twin(),
            group: group_twin(&self.group),
            proto: self.proto,
            enabled: self.enabled,
            wiz: self.wiz,
            fails: self.fails,
            number: self.number,
            last: self.last,
            expires: self.expires,
            long: self.long.twin(),
        }
    }
}

impl Reply {
    /// An equal reply. Takes no memory.
    pub fn twin(&self) -> Reply
        ensures { result ≡ self.now }
    {
        match self {
            Reply::Opened { sid } => Reply::Opened { sid: *sid },
            Reply::Password => Reply::Password,
            Reply::Challenge { number, word_seed } => Reply::Challenge {
                number: *number,
                word_seed: word_seed.twin(),
            },
            Reply::Ok => Reply::Ok,
            Reply::Shown(summary) => Reply::Shown(summary.twin()),
            Reply::Denied(denial) => Reply::Denied(*denial),
        }
    }
}
