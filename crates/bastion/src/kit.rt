ghost use Rattle.std.specs.Prelude.{◌≡◌};
ghost use Rattle.fw_outside.specs.LauncherView.{Starts};
ghost use Rattle.fw_outside.specs.SinkView.{Gives};

use fw_disk::Disk;
use fw_outside::{Clock, Dialer, Dice, Failed, Files, Keeper, Launcher, Sink, Source, Started};
use fw_types::OctetsList;
use std::marker::Model;

/// The kinds of device that a run is given.
pub trait Kit {
    type Files: Files;

    type Input: Source + Send;

    type Output: Sink + Send;

    type Logs: Sink;

    type Tick: Clock;

    type Dice: Dice;

    type Keeper: Keeper;

    type Dial: Dialer;

    type Launch: Launcher;

    type Disk: Disk;

    type AuthIn: Source;

    type AuthOut: Sink;
}

/// The devices that a run is given.
#[derive(Drop)]
pub struct World<T: Kit> {
    /// Where the permission table stands.
    pub files: T::Files,
    /// What a client says.
    pub input: T::Input,
    /// Where decisions are printed, and what a client is told.
    pub output: T::Output,
    /// Where log lines go.
    pub logs: T::Logs,
    /// Where the moments come from.
    pub clock: T::Tick,
    /// Where the salts of new passwords come from.
    pub dice: T::Dice,
    /// Who keeps the users' records. It is there whenever a run begins or ends.
    pub keeper: Option<T::Keeper>,
    /// Who makes links to servers.
    pub dialer: T::Dial,
    /// Who starts programs.
    pub launcher: T::Launch,
    /// The disks of the mail's slots, in order of their numbers.
    pub disks: Vec<T::Disk>,
    /// What comes from an authentication server elsewhere, and what goes to it. Both are there whenever a run of a gateway
    /// whose users are known there begins or ends.
    pub remote: Option<(T::AuthIn, T::AuthOut)>,
}

impl<T: Kit> Model for World<T> {
    ghost use Rattle.std.specs.Option.{option_map};
    ghost use Rattle.std.specs.Prelude.{map};
    ghost use Rattle.bastion.specs.WorldView.{WorldView};

    ghost Value = { WorldView };

    ghost view = { λ w. record {
      files = T.Files.files_view w.files;
      output = T.Output.sink_view w.output;
      logs = T.Logs.sink_view w.logs;
      inputs = record {
        input = T.Input.source_view w.input;
        clock = T.Tick.clock_view w.clock;
        dice = T.Dice.dice_view w.dice;
        keeper = option_map T.Keeper.keeper_view w.keeper;
        dialer = T.Dial.dialer_view w.dialer;
        launcher = T.Launch.launcher_view w.launcher;
        disks = map T.Disk.disk_view w.disks.items;
        remote = option_map (λ ends. record { source = T.AuthIn.source_view ends.0; sink = T.AuthOut.sink_view ends.1 }) w.remote;
      };
    } };
}

impl<T: Kit> World<T> {
    // Gives a text to standard output.
    pub(crate) fn print(&mut self, text: &[u8]) -> Result<(), Failed>
        ensures output { Gives result text.now self.old.output self.new.output }
        ensures logs { self.new.logs ≡ self.old.logs }
        ensures files { self.new.files ≡ self.old.files }
        ensures inputs { self.new.inputs ≡ self.old.inputs }
    {
        self.output.give(text)
    }

    // Starts a program, and waits for its end.
    pub(crate) fn start(&mut self, program: &[u8], args: &OctetsList) -> Started
        ensures starts { Starts result program.now args.now self.old.inputs.launcher self.new.inputs.launcher }
        ensures inputs { self.new.inputs ≡ record (self.old.inputs) { launcher = self.new.inputs.launcher } }
        ensures output { self.new.output ≡ self.old.output }
        ensures logs { self.new.logs ≡ self.old.logs }
        ensures files { self.new.files ≡ self.old.files }
    {
        self.launcher.start(program, args)
    }

    // Gives a line to the log.
    pub(crate) fn log(&mut self, line: &[u8]) -> Result<(), Failed>
        ensures logs { Gives result line.now self.old.logs self.new.logs }
        ensures output { self.new.output ≡ self.old.output }
        ensures files { self.new.files ≡ self.old.files }
        ensures inputs { self.new.inputs ≡ self.old.inputs }
    {
        self.logs.give(line)
    }
}
