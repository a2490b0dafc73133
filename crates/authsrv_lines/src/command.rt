ghost use Rattle.std.specs.Prelude.{◌≡◌};
ghost use Rattle.std.specs.Str.{str_eq_ignore_ascii_case};
ghost use Rattle.authsrv_lines.specs.Command.{wire_command_of, named_of, named_request, other_of};

use auth_events::Request;
use fw_types::Name;

/// A command that is followed by the name of a user alone.
#[derive(Clone, Copy, Debug, PartialEq, Eq)]
pub(crate) enum Named {
    Authenticate,
    Deluser,
    Enable,
    Disable,
    Wiz,
    Unwiz,
    Superwiz,
    Display,
}

/// The first word of a line.
#[derive(Clone, Copy, Debug, PartialEq, Eq)]
pub(crate) enum Command {
    Named(Named),
    Response,
    Digest,
    Operation,
    Adduser,
    Group,
    Proto,
    Password,
    Otp,
    Expire,
    List,
    Quit,
}

impl Named {
    /// The request about this user.
    pub(crate) fn request(self, name: Name) -> Request
        ensures { result ≡ named_request self name }
    {
        match self {
            Named::Authenticate => Request::Authenticate { name },
            Named::Deluser => Request::Deluser { name },
            Named::Enable => Request::Enable { name },
            Named::Disable => Request::Disable { name },
            Named::Wiz => Request::Wiz { name },
            Named::Unwiz => Request::Unwiz { name },
            Named::Superwiz => Request::Superwiz { name },
            Named::Display => Request::Display { name },
        }
    }
}

fn is(word: &[u8], command: &[u8]) -> bool
    ensures { result ≡ str_eq_ignore_ascii_case word.now command.now }
{
    word.eq_ignore_ascii_case(command)
}

#[tactic(auto, unfolding(crate::specs::Command::named_of))]
fn named_of(word: &[u8]) -> Option<Named>
    ensures { result ≡ named_of word.now }
{
    if is(word, b"authenticate") || is(word, b"authorize") {
        Some(Named::Authenticate)
    } else if is(word, b"deluser") {
        Some(Named::Deluser)
    } else if is(word, b"enable") {
        Some(Named::Enable)
    } else if is(word, b"disable") {
        Some(Named::Disable)
    } else if is(word, b"wiz") {
        Some(Named::Wiz)
    } else if is(word, b"unwiz") {
        Some(Named::Unwiz)
    } else if is(word, b"superwiz") {
        Some(Named::Superwiz)
    } else if is(word, b"display") {
        Some(Named::Display)
    } else {
        None
    }
}

#[tactic(auto, unfolding(crate::specs::Command::other_of))]
fn other_of(word: &[u8]) -> Option<Command>
    ensures { result ≡ other_of word.now }
{
    if is(word, b"response") {
        Some(Command::Response)
    } else if is(word, b"digest") {
        Some(Command::Digest)
    } else if is(word, b"operation") {
        Some(Command::Operation)
    } else if is(word, b"adduser") {
        Some(Command::Adduser)
    } else if is(word, b"group") {
        Some(Command::Group)
    } else if is(word, b"proto") {
        Some(Command::Proto)
    } else if is(word, b"password") {
        Some(Command::Password)
    } else if is(word, b"otp") {
        Some(Command::Otp)
    } else if is(word, b"expire") {
        Some(Command::Expire)
    } else if is(word, b"list") {
        Some(Command::List)
    } else if is(word, b"quit") {
        Some(Command::Quit)
    } else {
        None
    }
}

impl Command {
    /// The command that the word is, in any case, or nothing.
    pub(crate) fn read(word: &[u8]) -> Option<Command>
        ensures { result ≡ wire_command_of word.now }
    {
        match named_of(word) {
            Some(named) => Some(Command::Named(named)),
            None => other_of(word),
        }
    }
}
