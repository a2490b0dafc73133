ghost use Rattle.std.specs.Prelude.{◌≡◌};

use crate::OtpNumber;
use auth_records::{LongName, Proto, Seed};
use fw_types::{Host, Name};

/// The gateway for which permission is asked.
#[derive(Clone, Copy, Debug, PartialEq, Eq)]
pub enum OpService {
    Telnet,
    Rlogin,
    Ftp,
}

/// What a session may ask.
#[derive(Drop)]
pub enum Request {
    /// A new session; at the console it may do everything.
    Open {
        console: bool,
    },
    /// How this user proves who they are.
    Authenticate {
        name: Name,
    },
    /// The MD5 digest of what the user typed, and the one-time password that it was, if any.
    Response {
        hash: [u8; 16],
        word: Option<u64>,
    },
    /// Permission for the user who is logged in to reach a host.
    Operation {
        service: OpService,
        host: Host,
    },
    /// A new user.
    Adduser {
        name: Name,
        long: LongName,
    },
    /// The user's record is to go.
    Deluser {
        name: Name,
    },
    /// The user may log in from now on.
    Enable {
        name: Name,
    },
    /// The user may not log in from now on.
    Disable {
        name: Name,
    },
    /// The user's group, or none.
    Group {
        name: Name,
        group: Option<Name>,
    },
    /// How the user proves who they are from now on.
    Proto {
        name: Name,
        proto: Proto,
    },
    /// The MD5 digest of a new password, and the salt to keep it with.
    Password {
        name: Name,
        salt: [u8; 8],
        hash: [u8; 16],
    },
    /// New one-time passwords (RFC 2289): the count, the seed, and the password of that count.
    Otp {
        name: Name,
        number: OtpNumber,
        word_seed: Seed,
        kept: u64,
    },
    /// The user is a wizard of their group from now on.
    Wiz {
        name: Name,
    },
    /// The user is no wizard from now on.
    Unwiz {
        name: Name,
    },
    /// The user is a wizard over all from now on.
    Superwiz {
        name: Name,
    },
    /// In seconds, the moment from which the user may not log in; 0 for never.
    Expire {
        name: Name,
        until: u64,
    },
    /// The user's record.
    Display {
        name: Name,
    },
    /// The record of the first name after this one, or of the first of all.
    List {
        after: Option<Name>,
    },
    /// The end of the session.
    Close,
}

fn name_twin(name: &Option<Name>) -> Option<Name>
    ensures { result ≡ name.now }
{
    match name {
        Some(name) => Some(name.twin()),
        None => None,
    }
}

impl Request {
    /// An equal request. Takes no memory.
    pub fn twin(&self) -> Request
        ensures { result ≡ self.now }
    {
        match self {
            Request::Open { console } => Request::Open { console: *console },
            Request::Authenticate { name } => Request::Authenticate { name: name.twin() },
            Request::Response { hash, word } => Request::Response {
                hash: *hash,
                word: *word,
            },
            Request::Operation { service, host } => Request::Operation {
                service: *service,
                host: host.twin(),
            },
            Request::Adduser { name, long } => Request::Adduser {
                name: name.twin(),
                long: long.twin(),
            },
            Request::Deluser { name } => Request::Deluser { name: name.twin() },
            Request::Enable { name } => Request::Enable { name: name.twin() },
            Request::Disable { name } => Request::Disable { name: name.twin() },
            Request::Group { name, group } => Request::Group {
                name: name.twin(),
                group: name_twin(group),
            },
            Request::Proto { name, proto } => Request::Proto {
                name: name.twin(),
                proto: *proto,
            },
            Request::Password { name, salt, hash } => Request::Password {
                name: name.twin(),
                salt: *salt,
                hash: *hash,
            },
            Request::Otp {
                name,
                number,
                word_seed,
                kept,
            } => Request::Otp {
                name: name.twin(),
                number: number.twin(),
                word_seed: word_seed.twin(),
                kept: *kept,
            },
            Request::Wiz { name } => Request::Wiz { name: name.twin() },
            Request::Unwiz { name } => Request::Unwiz { name: name.twin() },
            Request::Superwiz { name } => Request::Superwiz { name: name.twin() },
            Request::Expire { name, until } => Request::Expire {
                name: name.twin(),
                until: *until,
            },
            Request::Display { name } => Request::Display { name: name.twin() },
            Request::List { after } => Request::List {
                after: name_twin(after),
            },
            Request::Close => Request::Close,
        }
    }
}
