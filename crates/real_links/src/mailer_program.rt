ghost use Rattle.std.specs.Prelude.{◌≡◌, ◌++◌, ◌∷◌, true, pos, Some, [], IfOk, IfSome, OnErr};
ghost use Rattle.std.specs.List.{list_any};
ghost use Rattle.std.specs.Process.{exit_code};
ghost use Rattle.fw_outside.specs.Counts.{Rose, counted};
ghost use Rattle.fw_mail.specs.MailerView.{Hands};
ghost use Rattle.real_links.specs.Programs.{Runs, is_slash};
ghost use Rattle.real_links.specs.MailerPrograms.{MailedAs, Means, SaidSo, is_unfit_message, mail_args, untold_mailer};

use crate::body_file::{body_path, file_of};
use crate::command::command;
use crate::ending::run_within;
use crate::mail_words::{is_unfit_message, mail_args};
use crate::programs::{has_slash, status_of};
use crate::ran::Ran;
use crate::taken::Taken;
use fw_mail::{Handed, Mailer, Message};
use fw_types::{NoMemory, Octets};
use std::process::Command;

/// A program of the system that mail is handed to. It is run with `-f`, the sender or `<>`, and the recipients, and finds
/// the body at its standard input, in a file that has no name. If it ends with status 0 it accepted the message, with 75 it
/// failed, and with any other it refused it. One that can't be started, is ended by a signal, or isn't done in time, when it
/// is killed, failed. For want of memory for its words it isn't started. What it prints to its standard output is dropped.
#[derive(Drop)]
pub struct MailerProgram {
    system: HostRuntime,
    program: Octets,
    folder: Octets,
    seconds: u32,
    last: Option<Ran>,
    took: Taken,
    refusals: u64,
    faults: u64,
}

impl MailerProgram {
    /// The program of this path, which has so many seconds for each message. A body stands in a file of the folder while
    /// its message is handed over. Nothing is counted yet.
    pub fn new(
        system: HostRuntime,
        program: &[u8],
        folder: &[u8],
        seconds: u32,
    ) -> Result<MailerProgram, NoMemory>
        ensures program { IfOk result (λ mailer. mailer.program ≡ program.now) }
        ensures took { IfOk result (λ mailer. mailer.took ≡ []) }
        ensures refusals { IfOk result (λ mailer. mailer.refusals ≡ 0) }
        ensures faults { IfOk result (λ mailer. mailer.faults ≡ 0) }
    {
        let program = Octets::copy(system.alloc(), program)?;
        let folder = Octets::copy(system.alloc(), folder)?;
        Ok(MailerProgram {
            system,
            program,
            folder,
            seconds,
            last: None,
            took: Taken::none(),
            refusals: 0,
            faults: 0,
        })
    }

    // Runs a command whose input is this body, in a file that is made at this path.
    fn run_command(&self, command: Command, path: &str, body: &[u8]) -> Option<Ran>
        ensures { IfSome result (λ ran. ran.command.value ≡ command) }
    {
        let Ok(input) = file_of(&self.system, path, body) else {
            return None;
        };
        match run_within(&self.system, command, input, self.seconds) {
            Ok(ran) => Some(ran),
            Err(_) => None,
        }
    }

    // Runs the program with a message.
    fn run_program(&self, message: &Message) -> Result<Option<Ran>, NoMemory>
        ensures { IfOk result (λ found. IfSome found (Runs self.now.program (mail_args message.now))) }
    {
        if !has_slash(self.program.bytes()) {
            return Ok(None);
        }
        let args = mail_args(self.system.alloc(), message)?;
        let Some(command) = command(self.system.alloc(), self.program.bytes(), args.as_slice())?
        else {
            return Ok(None);
        };
        let Some(path) = body_path(self.system.alloc(), self.folder.bytes())? else {
            return Ok(None);
        };
        Ok(self.run_command(command, &path, message.body.bytes()))
    }

    // Notes what was run; the status with which it ended.
    fn note(&mut self, ran: Ran) -> Option<u8>
        ensures ended { IfSome result (λ ending. exit_code ran.status ≡ Some (pos ending)) }
        ensures noted { self.new.last ≡ Some ran }
        ensures same { self.new ≡ record self.old { last = self.new.last } }
    {
        let ending = status_of(ran.status);
        self.last = Some(ran);
        ending
    }

    // Runs the program with a message, and notes it; the status with which it ended, or nothing.
    fn run(&mut self, message: &Message) -> Result<Option<u8>, NoMemory>
        ensures ran { IfOk result (λ found. IfSome found (λ ending. MailedAs self.old.program message.now ending self.new.last)) }
        ensures same { self.new ≡ record self.old { last = self.new.last } }
        ensures lacked { OnErr result (self.new.last ≡ self.old.last) }
    {
        match self.run_program(message) {
            Ok(Some(ran)) => Ok(self.note(ran)),
            Ok(None) => Ok(None),
            Err(NoMemory) => Err(NoMemory),
        }
    }

    // Notes that the program took the message.
    fn accept(&mut self, message: &Message) -> Handed
        ensures answer { result ≡ Handed.Accepted }
        ensures is { self.new ≡ record self.old { took = self.old.took ++ message.now ∷ [] } }
    {
        let took = Taken::with(message, &self.took);
        self.took = took;
        Handed::Accepted
    }

    fn refuse(&mut self) -> Handed
        ensures answer { result ≡ Handed.Refused }
        ensures rose { Rose self.old.refusals self.new.refusals }
        ensures is { self.new ≡ record self.old { refusals = counted self.old.refusals } }
    {
        self.refusals = self.refusals.saturating_add(1);
        Handed::Refused
    }

    fn fail(&mut self) -> Handed
        ensures answer { result ≡ Handed.Failed }
        ensures rose { Rose self.old.faults self.new.faults }
        ensures is { self.new ≡ record self.old { faults = counted self.old.faults } }
    {
        self.faults = self.faults.saturating_add(1);
        Handed::Failed
    }

    // What the status says of the message.
    fn judge(&mut self, message: &Message, ending: u8) -> Handed
        ensures means { Means result ending }
        ensures hands { Hands result message.now (untold_mailer self.old.took self.old.refusals self.old.faults)
            (untold_mailer self.new.took self.new.refusals self.new.faults) }
        ensures program { self.new.program ≡ self.old.program }
        ensures last { self.new.last ≡ self.old.last }
    {
        match ending {
            0 => self.accept(message),
            75 => self.fail(),
            _ => self.refuse(),
        }
    }
}

impl Mailer for MailerProgram {
    ghost mailer_view = { λ m. untold_mailer m.took m.refusals m.faults };

    /// Not started for a message whose sender or recipient begins with `-` or has a byte 0.
    #[tactic(auto, using(crate::proofs::ProgramLemmas::said_so))]
    fn hand(&mut self, message: &Message) -> Handed
        ensures hands { Hands result message.now (untold_mailer self.old.took self.old.refusals self.old.faults)
            (untold_mailer self.new.took self.new.refusals self.new.faults) }
        ensures unfit { is_unfit_message message.now ≡ true → result ≡ Handed.Failed }
        ensures said { SaidSo result self.old.program message.now self.old.last self.new.last }
    {
        if is_unfit_message(message) {
            return self.fail();
        }
        match self.run(message) {
            Ok(Some(ending)) => self.judge(message, ending),
            Ok(None) => self.fail(),
            Err(NoMemory) => Handed::NoMemory,
        }
    }

    fn shown(&self) -> &[Message]
        ensures { result.now ≡ [] }
    {
        &[]
    }
}
