ghost use Rattle.std.specs.Prelude.{◌≡◌, ◌≢◌, ◌≤◌, [], length};
ghost use Rattle.telnet.specs.Lines.{lines_heard};
ghost use Rattle.telnet.specs.TelnetView.{HearsByte};

use crate::TelnetStep;
use crate::cutter::Cutter;
use crate::place::Place;
use std::marker::Model;

/// A reader of what a client of Telnet says.
#[derive(Drop)]
pub struct Telnet {
    place: Place,
    cutter: Cutter,
}

impl Model for Telnet {
    ghost use Rattle.std.specs.Prelude.{◌≡◌, [], ◌++◌};
    ghost use Rattle.telnet.specs.Items.{doubled};
    ghost use Rattle.telnet.specs.Lines.{lines_of};
    ghost use Rattle.telnet.specs.Place.{held};
    ghost use Rattle.telnet.specs.TelnetView.{TelnetView};

    ghost Value = { TelnetView };

    ghost view = { λ t. record { line = t.cutter.line; pending = doubled t.cutter.pending ++ held t.place } };

    ghost invariant = { λ t. lines_of t.cutter.pending ≡ [] };
}

impl Telnet {
    /// A reader at the beginning of a text.
    pub fn new() -> Telnet
        ensures { result ≡ record { line = []; pending = [] } }
    {
        Telnet {
            place: Place::Data,
            cutter: Cutter::new(),
        }
    }

    /// Takes the next byte of the text, and tells whether a line has ended with it. Behind a line nothing that came is
    /// still to be heard: what follows in the text is as it came.
    pub fn feed(&mut self, byte: u8) -> TelnetStep
        ensures hears { HearsByte result self.old self.new byte }
        ensures prompt { lines_heard self.new.pending ≡ [] }
        ensures done { result ≢ TelnetStep.More → self.new.pending ≡ [] }
        ensures more { result ≡ TelnetStep.More → self.new.line ≡ self.old.line }
        ensures too_long { result ≡ TelnetStep.TooLong → self.new.line ≡ self.old.line }
    {
        let (place, given) = self.place.behind(byte);
        self.place = place;
        match given {
            Some(data_byte) => self.cutter.take(data_byte),
            None => TelnetStep::More,
        }
    }

    /// The line that ended last, of those that aren't too long: the one that ended just now where a step has told
    /// `Line`. It is empty before the first.
    pub fn line(&self) -> &[u8]
        ensures line { result.now ≡ self.now.line }
        ensures short { length self.now.line ≤ 512 }
    {
        self.cutter.line()
    }
}
