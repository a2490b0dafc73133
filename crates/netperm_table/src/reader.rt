//! Reading in pieces: the lines so far, and the line that is being read.
ghost use Rattle.std.specs.Prelude.{◌≡◌, ◌≢◌, ◌<◌, ◌≤◌, ◌+◌, ◌==◌, false, [], ◌∷◌, ◌++◌, length, All, IfOk, IfErr, OnOk, Ok, Err, option_to_list};
ghost use Rattle.netperm_table.specs.Progress.{AddsLine, Leads, MayGoOn, ShowsFault, farthest, reached, no_progress, table_with};
ghost use Rattle.netperm_table.specs.Reading.{reading};

use crate::cut::{cut_at_line_end, without_return};
use crate::keywords::Recent;
use crate::line::Line;
use crate::read_line::{LAST_LINE, LONGEST, read_line};
use crate::table_fault::TableFault;
use arrayvec::ArrayVec;
use fw_types::append;
use std::alloc::Global;
use std::marker::Model;

/// A table that is being read: its buffer holds the bytes of a longest line and the CR that may come before its LF.
#[derive(Drop)]
pub(crate) struct Reader {
    made: Vec<Line>,
    number: u32,
    line: ArrayVec<u8, 2049>,
    recent: Recent,
}

impl Model for Reader {
    ghost use Rattle.std.specs.Prelude.{◌≡◌, ◌≤◌, ◌==◌, false, All, length};
    ghost use Rattle.netperm_table.specs.Progress.{Progress};

    ghost Value = { Progress };

    ghost view = { λ r. record { made = r.made.items; number = r.number; line = r.line.items } };

    ghost invariant = { λ r. All (λ b. (b == 10) ≡ false) r.line.items × (r.number ≤ 65536) ×
        (length r.line.items ≤ 2049) };
}

// Keeps a line that isn't skipped.
fn keep(made: &mut Vec<Line>, line: Option<Line>) -> Result<(), TableFault>
    ensures ok { OnOk result (made.new.items ≡ made.old.items ++ option_to_list line) }
    ensures err { IfErr result (λ e. e ≡ TableFault.NoMemory) }
{
    match line {
        Some(line) => Ok(made.push(line)?),
        None => Ok(()),
    }
}

// Reads a line, and keeps it where it isn't skipped.
fn read_and_keep(
    alloc: Global,
    recent: &mut Recent,
    made: &mut Vec<Line>,
    number: u32,
    bytes: &[u8],
) -> Result<(), TableFault>
    ensures ok { OnOk result (AddsLine number bytes.now made.old.items made.new.items) }
    ensures err { IfErr result (λ e. e ≢ TableFault.NoMemory → reading number bytes.now ≡ Err e) }
    ensures own { IfErr result (λ e. e ≢ TableFault.ReadFault) }
{
    let line = read_line(alloc, recent, number, bytes)?;
    keep(made, line)
}

impl Reader {
    /// Nothing was read.
    pub(crate) fn new(alloc: Global) -> Reader
        ensures { result ≡ no_progress }
    {
        Reader {
            made: Vec::new(alloc),
            number: 1,
            line: ArrayVec::new(),
            recent: Recent::none(),
        }
    }

    // Gathers bytes of the line that is being read.
    fn gather(&mut self, bytes: &[u8]) -> Result<(), TableFault>
        requires number { self.old.number ≤ 65535 }
        requires line { All (λ b. (b == 10) ≡ false) bytes.now }
        ensures ok { OnOk result (Leads self.old bytes.now self.new []) }
        ensures number { OnOk result (self.new.number ≡ self.old.number) }
        ensures goes_on { OnOk result (MayGoOn self.new) }
        ensures far { OnOk result (reached self.new ≡ reached self.old + length bytes.now) }
        ensures within { OnOk result (reached self.new ≤ farthest) }
        ensures fault { IfErr result (λ e. ShowsFault self.old bytes.now e) }
        ensures own { IfErr result (λ e. e ≢ TableFault.ReadFault) }
    {
        if bytes.len() > self.line.remaining_capacity() {
            return Err(TableFault::LongLine { line: self.number });
        }
        append(&mut self.line, bytes);
        if without_return(self.line.as_slice()).len() > LONGEST {
            return Err(TableFault::LongLine { line: self.number });
        }
        Ok(())
    }

    // Ends the line that is being read.
    fn end_line(&mut self, alloc: Global) -> Result<(), TableFault>
        requires { self.old.number ≤ 65535 }
        ensures ok { OnOk result (Leads self.old (10 ∷ []) self.new []) }
        ensures goes_on { OnOk result (MayGoOn self.new) }
        ensures far { OnOk result (reached self.old < reached self.new) }
        ensures within { OnOk result (reached self.new ≤ farthest) }
        ensures fault { IfErr result (λ e. e ≢ TableFault.NoMemory → ShowsFault self.old (10 ∷ []) e) }
        ensures own { IfErr result (λ e. e ≢ TableFault.ReadFault) }
    {
        let line = without_return(self.line.as_slice());
        read_and_keep(alloc, &mut self.recent, &mut self.made, self.number, line)?;
        self.number += 1;
        self.line.clear();
        Ok(())
    }

    // Reads on to the end of the line or of the bytes, and tells what is left of them.
    fn read_on<'a>(&mut self, alloc: Global, bytes: &'a [u8]) -> Result<&'a [u8], TableFault>
        requires { 0 < length bytes.now }
        ensures ok { IfOk result (λ left. Leads self.old bytes.now self.new left.now) }
        ensures goes_on { OnOk result (MayGoOn self.new) }
        ensures far { OnOk result (reached self.old < reached self.new) }
        ensures within { OnOk result (reached self.new ≤ farthest) }
        ensures shorter { IfOk result (λ left. length left.now < length bytes.now) }
        ensures fault { IfErr result (λ e. e ≢ TableFault.NoMemory → ShowsFault self.old bytes.now e) }
        ensures own { IfErr result (λ e. e ≢ TableFault.ReadFault) }
    {
        if self.number > LAST_LINE {
            return Err(TableFault::ManyLines);
        }
        let (line, rest) = cut_at_line_end(bytes);
        self.gather(line)?;
        match rest {
            Some(rest) => {
                self.end_line(alloc)?;
                Ok(rest)
            }
            None => Ok(&[]),
        }
    }

    /// Reads the next bytes of the text.
    pub(crate) fn feed(&mut self, alloc: Global, bytes: &[u8]) -> Result<(), TableFault>
        ensures ok { OnOk result (Leads self.old bytes.now self.new []) }
        ensures goes_on { OnOk result (0 < length bytes.now → MayGoOn self.new) }
        ensures far { OnOk result (0 < length bytes.now → reached self.old < reached self.new) }
        ensures within { OnOk result (0 < length bytes.now → reached self.new ≤ farthest) }
        ensures fault { IfErr result (λ e. e ≢ TableFault.NoMemory → ShowsFault self.old bytes.now e) }
        ensures own { IfErr result (λ e. e ≢ TableFault.ReadFault) }
    {
        let mut rest = bytes;
        while !rest.is_empty() {
            rest = self.read_on(alloc, rest)?;
        }
        Ok(())
    }

    /// The lines of the text that ends here.
    pub(crate) fn finish(self, alloc: Global) -> Result<Vec<Line>, TableFault>
        ensures ok { IfOk result (λ lines. table_with self [] ≡ Ok lines.items) }
        ensures fault { IfErr result (λ e. e ≢ TableFault.NoMemory → table_with self [] ≡ Err e) }
        ensures own { IfErr result (λ e. e ≢ TableFault.ReadFault) }
    {
        let Reader {
            mut made,
            number,
            line,
            mut recent,
        } = self;
        if line.is_empty() {
            return Ok(made);
        }
        read_and_keep(alloc, &mut recent, &mut made, number, line.as_slice())?;
        Ok(made)
    }
}
