//! What is told of a client of Telnet.

use crate::lines::pieces::{Feeding, tell_fed};
use crate::lines::telling::add_text;
use arrayvec::ArrayVec;
use lines_of_rows::{Told, add, add_word};
use telnet::{Telnet, TelnetStep};

/// The reader of Telnet, and the line that it told last.
#[derive(Drop)]
struct Client {
    reader: Telnet,
    line: ArrayVec<u8, 512>,
}

impl Feeding for Client {
    fn begin() -> Client {
        Client {
            reader: Telnet::new(),
            line: ArrayVec::new(),
        }
    }

    fn feed(&mut self, byte: u8, out: &mut Told) {
        match self.reader.feed(byte) {
            TelnetStep::More => {}
            TelnetStep::Line => {
                self.line.clear();
                let _ = self.line.try_extend_from_slice(self.reader.line());
                add_text(out, self.reader.line());
            }
            TelnetStep::TooLong => add_word(out, b"too-long"),
        }
    }

    fn look(&self, out: &mut Told) {
        if self.reader.line() != self.line.as_slice() {
            add_word(out, b"another line");
        }
    }
}

/// `telnet TEXT => [LINE] ..`: each line at its end.
pub(crate) fn tell_telnet(asked: &[u8], out: &mut Told) {
    tell_fed::<Client>(asked, out);
}

/// The reader of Telnet up to the first line.
#[derive(Drop)]
struct First {
    reader: Telnet,
    is_heard: bool,
}

impl Feeding for First {
    fn begin() -> First {
        First {
            reader: Telnet::new(),
            is_heard: false,
        }
    }

    fn feed(&mut self, byte: u8, out: &mut Told) {
        if self.is_heard {
            return add(out, &[byte]);
        }
        match self.reader.feed(byte) {
            TelnetStep::More => {}
            TelnetStep::Line => {
                self.is_heard = true;
                add_text(out, self.reader.line());
                add(out, b" ");
            }
            TelnetStep::TooLong => {
                self.is_heard = true;
                add_word(out, b"too-long ");
            }
        }
    }

    fn look(&self, _out: &mut Told) {}
}

/// `first-line TEXT => [LINE] REST`: the first line, a space, and what follows the line as it came. Nothing is told
/// where no line ends.
pub(crate) fn tell_first_line(asked: &[u8], out: &mut Told) {
    tell_fed::<First>(asked, out);
}
