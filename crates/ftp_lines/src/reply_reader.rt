//! Replies (RFC 959, 4.2), byte by byte.
ghost use Rattle.std.specs.Prelude.{◌≡◌, false, ◌==◌, ◌+◌, [], ◌∷◌, ◌++◌, length, Some, None, if◌then◌else◌};
ghost use Rattle.std.specs.Option.{option_copied};
ghost use Rattle.ftp_lines.specs.ReplyReaderView.{IsReplyStep, fed_after, short, step_of};
ghost use Rattle.ftp_lines.specs.Reply.{first_code, first_reply, without_end, unended_part};
ghost use Rattle.ftp_lines.specs.declared.reply_step.ReplyStep.TheVariants.{More};

use crate::ReplyStep;
use crate::fed::{Fed, and, nothing};
use crate::opening::{Opening, behind, closing_code, first_code};
use crate::reply_line::ReplyLine;
use std::marker::Model;
use std::mem;
use std::snapshot::Snapshot;

/// A reader of a server's replies. It keeps at most 514 bytes of a line, and passes over lines of any length. It gives
/// no byte back: who feeds a byte has it, to pass it on or not. Contracts know the reader as the bytes that it was fed
/// since the reply began, and the line that the last byte ended.
#[derive(Drop)]
pub struct ReplyReader {
    fed: Snapshot<Fed>,
    opening: Opening,
    line: ReplyLine,
}

impl Model for ReplyReader {
    ghost use Rattle.ftp_lines.specs.ReplyLineView.{heard_of};
    ghost use Rattle.ftp_lines.specs.ReplyReaderView.{ReplyReaderView};
    ghost use Rattle.ftp_lines.specs.ReaderState.{IsReaderState};

    ghost Value = { ReplyReaderView };

    ghost view = { λ r. record { fed = r.fed.value; heard = heard_of r.line.kept r.line.ended } };

    ghost invariant = { λ r. IsReaderState r.fed.value r.opening r.line };
}

impl ReplyReader {
    /// A reader before a reply.
    pub fn new() -> ReplyReader
        ensures { result ≡ record { fed = []; heard = None } }
    {
        ReplyReader {
            fed: nothing(),
            opening: Opening::Unheard,
            line: ReplyLine::new(),
        }
    }

    /// Reads the server's next byte: `Last` where it ends the reply, `Line` where it ends another line, `More` else. A
    /// line ends at LF. A reply ends at its first line that has three digits and then a space or its end, and the same
    /// digits as its first line where that has three digits and then a hyphen. After `Last` the next reply begins.
    pub fn feed(&mut self, byte: u8) -> ReplyStep
        ensures step { result ≡ (if byte == 10 then step_of (first_reply (self.old.fed ++ byte ∷ [])) else More) }
        ensures reply { IsReplyStep result (first_reply (self.old.fed ++ byte ∷ [])) (length self.old.fed + 1) }
        ensures fed { self.new.fed ≡ fed_after result (self.old.fed ++ byte ∷ []) }
        ensures line { self.new.heard ≡ (if byte == 10 then short (without_end (unended_part self.old.fed)) else None) }
        ensures unended { first_reply self.new.fed ≡ None }
    {
        if byte == b'\n' {
            return self.end_line();
        }
        self.go_on(byte);
        ReplyStep::More
    }

    // A byte that isn't LF.
    fn go_on(&mut self, byte: u8)
        requires { (byte == 10) ≡ false }
        ensures fed { self.new.fed ≡ self.old.fed ++ byte ∷ [] }
        ensures line { self.new.heard ≡ None }
        ensures unended { first_reply self.new.fed ≡ None }
    {
        self.line.go_on(byte);
        self.fed = and(mem::replace(&mut self.fed, nothing()), byte);
    }

    // An LF.
    fn end_line(&mut self) -> ReplyStep
        ensures step { result ≡ step_of (first_reply (self.old.fed ++ 10 ∷ [])) }
        ensures reply { IsReplyStep result (first_reply (self.old.fed ++ 10 ∷ [])) (length self.old.fed + 1) }
        ensures fed { self.new.fed ≡ fed_after result (self.old.fed ++ 10 ∷ []) }
        ensures line { self.new.heard ≡ short (without_end (unended_part self.old.fed)) }
        ensures unended { first_reply self.new.fed ≡ None }
    {
        self.line.end();
        match closing_code(self.opening, self.line.text()) {
            Some(code) => {
                self.fed = nothing();
                self.opening = Opening::Unheard;
                ReplyStep::Last { code }
            }
            None => {
                self.opening = behind(self.opening, self.line.text());
                self.fed = and(mem::replace(&mut self.fed, nothing()), b'\n');
                ReplyStep::Line
            }
        }
    }

    /// The line that the last byte ended, without its end. `None` where it was longer than 512 bytes, or where the
    /// last byte ended no line.
    pub fn line(&self) -> Option<&[u8]>
        ensures { option_copied result ≡ self.now.heard }
    {
        self.line.heard()
    }

    /// The code that the first line of the reply tells by three digits and then a hyphen or a space: known from its
    /// fourth byte on, however long the line is, and the code that `Last` will have. `None` before, and where the line
    /// begins otherwise. Three digits alone are a whole reply, whose code `Last` has; behind each `Last` the next
    /// reply begins.
    pub fn first_code(&self) -> Option<u16>
        ensures { result ≡ first_code self.now.fed }
    {
        first_code(self.opening, self.line.begun())
    }
}
