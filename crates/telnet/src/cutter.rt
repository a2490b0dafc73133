//! The cutting of data into lines.
ghost use Rattle.std.specs.Prelude.{◌≡◌, ◌≢◌, ◌≤◌, [], ◌∷◌, ◌++◌, length, take};
ghost use Rattle.telnet.specs.Cutting.{CutsData, ends_line, most_gathered};
ghost use Rattle.telnet.specs.Lines.{lines_of};
ghost use Rattle.telnet.specs.declared.step.TelnetStep.{TelnetStep};

use crate::TelnetStep;
use arrayvec::ArrayVec;
use std::marker::Model;

/// The bytes of the longest line that is heard.
const LONGEST: usize = 512;

/// The line that is being read, and the one that was read last.
#[derive(Drop)]
pub(crate) struct Cutter {
    // Whether the data end in a CR, of which the next byte decides.
    returned: bool,
    // Of the line that is being read as much as tells whether it is too long.
    kept: ArrayVec<u8, 513>,
    line: ArrayVec<u8, 513>,
}

impl Model for Cutter {
    ghost use Rattle.std.specs.Prelude.{◌≤◌, ◌++◌, length, IsTrue};
    ghost use Rattle.std.specs.List.{list_all};
    ghost use Rattle.telnet.specs.Cutting.{is_line_byte, return_of};
    ghost use Rattle.telnet.specs.TelnetView.{TelnetView};

    ghost Value = { TelnetView };

    ghost view = { λ c. record { line = c.line.items; pending = c.kept.items ++ return_of c.returned } };

    ghost invariant = { λ c. IsTrue (list_all is_line_byte c.kept.items) × (length c.line.items ≤ 512) };
}

// Whether a byte of the data ends a line, behind a CR or not.
fn ends_line(returned: bool, byte: u8) -> bool
    ensures { result ≡ ends_line returned byte }
{
    byte == b'\n' || (returned && byte == 0)
}

// Keeps a byte, unless enough are kept.
fn keep(kept: &mut ArrayVec<u8, 513>, byte: u8)
    ensures { kept.new.items ≡ take most_gathered (kept.old.items ++ byte ∷ []) }
{
    if !kept.is_full() {
        kept.push(byte);
    }
}

impl Cutter {
    pub(crate) fn new() -> Cutter
        ensures { result ≡ record { line = []; pending = [] } }
    {
        Cutter {
            returned: false,
            kept: ArrayVec::new(),
            line: ArrayVec::new(),
        }
    }

    /// The line that ended last, of those that aren't too long.
    pub(crate) fn line(&self) -> &[u8]
        ensures line { result.now ≡ self.now.line }
        ensures short { length self.now.line ≤ 512 }
    {
        self.line.as_slice()
    }

    // Ends the line that is being read, as LF does.
    fn end(&mut self) -> TelnetStep
        ensures cuts { CutsData result self.old self.new 10 }
        ensures done { self.new.pending ≡ [] }
        ensures more { result ≡ TelnetStep.More → self.new.line ≡ self.old.line }
        ensures too_long { result ≡ TelnetStep.TooLong → self.new.line ≡ self.old.line }
    {
        let kept = self.kept.take();
        self.returned = false;
        if kept.len() > LONGEST {
            return TelnetStep::TooLong;
        }
        self.line = kept;
        TelnetStep::Line
    }

    /// Takes the next byte of the data.
    pub(crate) fn take(&mut self, byte: u8) -> TelnetStep
        ensures cuts { CutsData result self.old self.new byte }
        ensures prompt { lines_of self.new.pending ≡ [] }
        ensures done { result ≢ TelnetStep.More → self.new.pending ≡ [] }
        ensures more { result ≡ TelnetStep.More → self.new.line ≡ self.old.line }
        ensures too_long { result ≡ TelnetStep.TooLong → self.new.line ≡ self.old.line }
    {
        if ends_line(self.returned, byte) {
            return self.end();
        }
        if byte == b'\r' {
            self.returned = true;
        } else {
            self.returned = false;
            keep(&mut self.kept, byte);
        }
        TelnetStep::More
    }
}
