//! What is told of a client of mail.

use crate::lines::pieces::{Feeding, tell_fed};
use crate::lines::telling::add_text;
use lines_of_rows::{Told, add, add_word};
use smap_lines::{BodyStep, MailBody, MailCommand, PathFault, read_mail_command, read_path};

fn tell_path_text(word: &[u8], path_text: Option<&[u8]>, out: &mut Told) {
    add(out, word);
    match path_text {
        Some(text) => add_text(out, text),
        None => add_word(out, b"-"),
    }
}

/// `mail LINE => WORD [TEXT]`: what the line asks for; `-` where no path's text follows.
pub(crate) fn tell_mail(asked: &[u8], out: &mut Told) {
    match read_mail_command(asked) {
        MailCommand::Helo { rest } => {
            add(out, b"helo");
            add_text(out, rest);
        }
        MailCommand::Mail { path_text } => tell_path_text(b"mail", path_text, out),
        MailCommand::Rcpt { path_text } => tell_path_text(b"rcpt", path_text, out),
        MailCommand::Data => add(out, b"data"),
        MailCommand::Rset => add(out, b"rset"),
        MailCommand::Noop => add(out, b"noop"),
        MailCommand::Quit => add(out, b"quit"),
        MailCommand::Help => add(out, b"help"),
        MailCommand::NotImplemented => add(out, b"not-implemented"),
        MailCommand::Unknown => add(out, b"unknown"),
    }
}

/// `path TEXT => [PATH]`, and `path-or-none` where it may be empty. A fault is `Syntax` or `NotAllowed`.
pub(crate) fn tell_path(asked: &[u8], may_be_empty: bool, out: &mut Told) {
    match read_path(asked, may_be_empty) {
        Ok(path) => add_text(out, path.text()),
        Err(PathFault::Syntax) => add(out, b"Syntax"),
        Err(PathFault::NotAllowed) => add(out, b"NotAllowed"),
    }
}

/// The reader of a body, and whether it has ended.
#[derive(Drop)]
struct Data {
    body: MailBody,
    is_ended: bool,
}

impl Feeding for Data {
    fn begin() -> Data {
        Data {
            body: MailBody::new(),
            is_ended: false,
        }
    }

    fn feed(&mut self, byte: u8, out: &mut Told) {
        if self.is_ended {
            return add(out, &[byte]);
        }
        match self.body.feed(byte) {
            BodyStep::Bytes(bytes) => add(out, bytes.as_slice()),
            BodyStep::End => {
                self.is_ended = true;
                add(out, b"|End|");
            }
        }
    }

    fn look(&self, _out: &mut Told) {}
}

/// `body TEXT => BODY|End|REST`, or what is given of a body that has no end.
pub(crate) fn tell_body(asked: &[u8], out: &mut Told) {
    tell_fed::<Data>(asked, out);
}

/// The reader of bodies, one behind the other.
#[derive(Drop)]
struct Bodies {
    reader: MailBody,
}

impl Feeding for Bodies {
    fn begin() -> Bodies {
        Bodies {
            reader: MailBody::new(),
        }
    }

    fn feed(&mut self, byte: u8, out: &mut Told) {
        match self.reader.feed(byte) {
            BodyStep::Bytes(bytes) => add(out, bytes.as_slice()),
            BodyStep::End => add(out, b"|End|"),
        }
    }

    fn look(&self, _out: &mut Told) {}
}

/// `bodies TEXT => BODY|End|BODY|End|..`: what follows the end of a body is fed on to the same reader.
pub(crate) fn tell_bodies(asked: &[u8], out: &mut Told) {
    tell_fed::<Bodies>(asked, out);
}
