ghost use Rattle.std.specs.Prelude.{◌≡◌};
ghost use Rattle.authsrv_lines.specs.Words.{words};
ghost use Rattle.authsrv_lines.specs.Request.{asked, request_of};

use crate::command::Command;
use crate::parts::{
    read_adduser, read_alone, read_digest, read_expire, read_group, read_named, read_operation,
    read_otp, read_password, read_proto, read_response,
};
use crate::words::next_word;
use crate::{Wire, WireFault};

// What the command asks for with what follows it.
fn read_parts(command: Command, rest: &[u8]) -> Result<Wire, WireFault>
    ensures { result ≡ asked command (words rest.now) rest.now }
{
    match command {
        Command::Named(named) => read_named(named, rest),
        Command::Response => read_response(rest),
        Command::Digest => read_digest(rest),
        Command::Operation => read_operation(rest),
        Command::Adduser => read_adduser(rest),
        Command::Group => read_group(rest),
        Command::Proto => read_proto(rest),
        Command::Password => read_password(rest),
        Command::Otp => read_otp(rest),
        Command::Expire => read_expire(rest),
        Command::List => read_alone(Wire::List, rest),
        Command::Quit => read_alone(Wire::Quit, rest),
    }
}

/// What the line, without its end, asks for. `LongLine` for more than 512 bytes, then `Empty` for blanks alone, then
/// `Unknown` for a first word that is no command, then `Words` where the command's words are too few, too many or out
/// of form, then `BadName` for a name that is not valid.
pub fn read_request(line: &[u8]) -> Result<Wire, WireFault>
    ensures { result ≡ request_of line.now }
{
    if line.len() > 512 {
        return Err(WireFault::LongLine);
    }
    let Some((word, rest)) = next_word(line) else {
        return Err(WireFault::Empty);
    };
    match Command::read(word) {
        Some(command) => read_parts(command, rest),
        None => Err(WireFault::Unknown),
    }
}
