//! What is told of a server's replies.

use crate::lines::pieces::{Feeding, tell_fed};
use crate::lines::telling::add_text;
use ftp_lines::{ReplyReader, ReplyStep};
use lines_of_rows::{Told, add_number, add_word};

/// The reader of replies, and its last step.
#[derive(Drop)]
struct Replies {
    reader: ReplyReader,
    step: ReplyStep,
}

// Tells the line that has just ended.
fn tell_line(reader: &ReplyReader, out: &mut Told) {
    match reader.line() {
        Some(line) => add_text(out, line),
        None => add_word(out, b"too-long"),
    }
}

impl Feeding for Replies {
    fn begin() -> Replies {
        Replies {
            reader: ReplyReader::new(),
            step: ReplyStep::More,
        }
    }

    fn feed(&mut self, byte: u8, out: &mut Told) {
        self.step = self.reader.feed(byte);
        match self.step {
            ReplyStep::More => {}
            ReplyStep::Line => tell_line(&self.reader, out),
            ReplyStep::Last { code } => {
                tell_line(&self.reader, out);
                add_word(out, b"Last");
                add_number(out, u64::from(code));
            }
        }
    }

    fn look(&self, out: &mut Told) {
        if self.step == ReplyStep::More && self.reader.line().is_some() {
            add_word(out, b"a line without its end");
        }
    }
}

/// `replies TEXT => [LINE] .. Last CODE ..`: each line at its end, and the code at that of the reply.
pub(crate) fn tell_replies(asked: &[u8], out: &mut Told) {
    tell_fed::<Replies>(asked, out);
}

/// The reader of replies, how many bytes it was fed, and the code that the first line told by then.
#[derive(Drop)]
struct Codes {
    reader: ReplyReader,
    count: u64,
    code: Option<u16>,
}

impl Feeding for Codes {
    fn begin() -> Codes {
        Codes {
            reader: ReplyReader::new(),
            count: 0,
            code: None,
        }
    }

    fn feed(&mut self, byte: u8, out: &mut Told) {
        let _ = self.reader.feed(byte);
        self.count = self.count.saturating_add(1);
        let code = self.reader.first_code();
        if code == self.code {
            return;
        }
        self.code = code;
        add_number(out, self.count);
        match code {
            Some(number) => add_number(out, u64::from(number)),
            None => add_word(out, b"-"),
        }
    }

    fn look(&self, _out: &mut Told) {}
}

/// `first-code TEXT => COUNT CODE ..`: how many bytes were fed when the code that the first line tells changed, and to
/// what; `-` is none.
pub(crate) fn tell_first_code(asked: &[u8], out: &mut Told) {
    tell_fed::<Codes>(asked, out);
}
