//! The line of a reply that is being read, as far as it tells the code and whether it is too long.
ghost use Rattle.std.specs.Prelude.{◌≡◌, [], ◌∷◌, ◌++◌, true, false, take};
ghost use Rattle.std.specs.Option.{option_copied};
ghost use Rattle.ftp_lines.specs.ReplyLineView.{going, heard_of, most_kept};
ghost use Rattle.ftp_lines.specs.ReplyReaderView.{short};
ghost use Rattle.ftp_lines.specs.Reply.{without_end};

use arrayvec::ArrayVec;
use std::marker::Model;

/// At most 514 bytes: one more than the longest line and its CR.
#[derive(Drop)]
pub(crate) struct ReplyLine {
    kept: ArrayVec<u8, 514>,
    ended: bool,
}

impl Model for ReplyLine {
    ghost use Rattle.ftp_lines.specs.ReplyLineView.{ReplyLineView};

    ghost Value = { ReplyLineView };

    ghost view = { λ line. record { kept = line.kept.items; ended = line.ended } };
}

// The bytes without the CR at their end, if they have one.
fn without_return(bytes: &[u8]) -> &[u8]
    ensures { result.now ≡ without_end bytes.now }
{
    match bytes {
        [front @ .., b'\r'] => front,
        _ => bytes,
    }
}

impl ReplyLine {
    pub(crate) fn new() -> ReplyLine
        ensures { result ≡ record { kept = []; ended = false } }
    {
        ReplyLine {
            kept: ArrayVec::new(),
            ended: false,
        }
    }

    // Drops a line that has ended.
    fn begin(&mut self)
        ensures { self.new ≡ record { kept = going self.old.kept self.old.ended; ended = false } }
    {
        if self.ended {
            self.kept.clear();
            self.ended = false;
        }
    }

    // Keeps a byte if there is room for it.
    fn keep(&mut self, byte: u8)
        ensures { self.new ≡ record { kept = take most_kept (self.old.kept ++ byte ∷ []); ended = self.old.ended } }
    {
        if self.kept.remaining_capacity() > 0 {
            self.kept.push(byte);
        }
    }

    /// A byte that isn't LF.
    pub(crate) fn go_on(&mut self, byte: u8)
        ensures { self.new ≡ record {
          kept = take most_kept (going self.old.kept self.old.ended ++ byte ∷ []);
          ended =
              false;
        } }
    {
        self.begin();
        self.keep(byte);
    }

    /// An LF.
    pub(crate) fn end(&mut self)
        ensures { self.new ≡ record { kept = going self.old.kept self.old.ended; ended = true } }
    {
        self.begin();
        self.ended = true;
    }

    /// What is kept of the line that goes on.
    pub(crate) fn begun(&self) -> &[u8]
        ensures { result.now ≡ going self.now.kept self.now.ended }
    {
        if self.ended {
            return &[];
        }
        self.kept.as_slice()
    }

    /// What is kept of the line, without a CR at its end.
    pub(crate) fn text(&self) -> &[u8]
        ensures { result.now ≡ without_end self.now.kept }
    {
        without_return(self.kept.as_slice())
    }

    /// The line, where it has just ended and has at most 512 bytes.
    pub(crate) fn heard(&self) -> Option<&[u8]>
        ensures { option_copied result ≡ heard_of self.now.kept self.now.ended }
    {
        if self.ended {
            return short(self.text());
        }
        None
    }
}

// The line, if it has at most 512 bytes.
fn short(line: &[u8]) -> Option<&[u8]>
    ensures { option_copied result ≡ short line.now }
{
    if line.len() > 512 {
        return None;
    }
    Some(line)
}
