//! Commands that run a program of the system.
ghost use Rattle.std.specs.Prelude.{◌≡◌, ◌++◌, ◌∷◌, [], IfOk, IfSome, OnOk};
ghost use Rattle.std.specs.Process.{command_args, command_program};
ghost use Rattle.real_links.specs.Commands.{IsPlain, SameSurroundings};

use fw_types::{NoMemory, Octets};
use std::alloc::Global;
use std::process::Command;
use std::str;

// The text of a program or an argument. One that isn't UTF-8 can't be handed to the system.
fn text_of(bytes: &[u8]) -> Option<&str>
    ensures { IfSome result (λ text. text.now ≡ bytes.now) }
{
    str::from_utf8(bytes).ok()
}

// Adds an argument.
fn add(command: &mut Command, arg: &str) -> Result<(), NoMemory>
    ensures args { OnOk result (command_args command.new ≡ command_args command.old ++ arg.now ∷ []) }
    ensures program { OnOk result (command_program command.new ≡ command_program command.old) }
    ensures same { OnOk result (SameSurroundings command.old command.new) }
{
    command.arg(arg)?;
    Ok(())
}

// A command without arguments.
fn command_of(alloc: Global, program: &str) -> Result<Command, NoMemory>
    ensures program { IfOk result (λ command. command_program command ≡ program.now) }
    ensures args { IfOk result (λ command. command_args command ≡ []) }
    ensures plain { IfOk result IsPlain }
{
    Ok(Command::new(alloc, program)?)
}

/// The command that runs this program with these arguments, in the folder and with the variables and the streams of this
/// process; or nothing where a text isn't UTF-8.
pub(crate) fn command(
    alloc: Global,
    program: &[u8],
    args: &[Octets],
) -> Result<Option<Command>, NoMemory>
    ensures program { IfOk result (λ found. IfSome found (λ command. command_program command ≡ program.now)) }
    ensures args { IfOk result (λ found. IfSome found (λ command. command_args command ≡ args.now)) }
    ensures plain { IfOk result (λ found. IfSome found IsPlain) }
{
    let Some(text) = text_of(program) else {
        return Ok(None);
    };
    let mut command = command_of(alloc, text)?;
    for arg in args {
        let Some(word) = text_of(arg.bytes()) else {
            return Ok(None);
        };
        add(&mut command, word)?;
    }
    Ok(Some(command))
}
