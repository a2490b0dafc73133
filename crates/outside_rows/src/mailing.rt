//! What is told of a mailer in memory.

use crate::launching::args_of;
use fw_mail::{Handed, Mailer, Message};
use fw_memory::MemMailer;
use fw_types::{NoMemory, Octets};
use lines_of_rows::{Told, add, add_word, cut, cut_word};
use std::alloc::Global;

// The answers of which these are the letters: `r` is refused, `f` failed, `m` no memory, and any other accepted.
fn answers_of(alloc: Global, letters: &[u8]) -> Result<Vec<Handed>, NoMemory> {
    let mut answers = Vec::new(alloc);
    for letter in letters {
        let answer = match *letter {
            b'r' => Handed::Refused,
            b'f' => Handed::Failed,
            b'm' => Handed::NoMemory,
            _ => Handed::Accepted,
        };
        answers.push(answer)?;
    }
    Ok(answers)
}

fn tell_handed(answer: Handed, out: &mut Told) {
    let word = match answer {
        Handed::Accepted => b"accepted".as_slice(),
        Handed::Refused => b"refused".as_slice(),
        Handed::Failed => b"failed".as_slice(),
        Handed::NoMemory => b"no-memory".as_slice(),
    };
    add_word(out, word);
}

// The body, the sender and the recipients between commas.
fn message_of(alloc: Global, text: &[u8]) -> Result<Message, NoMemory> {
    let (body, rest) = cut(text, b',');
    let (from, rcpts) = cut(rest, b',');
    Ok(Message {
        from: Octets::copy(alloc, from)?,
        rcpts: args_of(alloc, rcpts)?,
        body: Octets::copy(alloc, body)?,
    })
}

fn tell_message(message: &Message, out: &mut Told) {
    add_word(out, message.body.bytes());
    add(out, b",");
    add(out, message.from.bytes());
    for rcpt in message.rcpts.as_slice() {
        add(out, b",");
        add(out, rcpt.bytes());
    }
}

/// `mailer LETTERS BODY,FROM,RCPT,.. .. => ANSWER .. BODY,FROM,RCPT,.. ..`: what each hand answers, and then what the
/// mailer says that it accepted. `-` is one that accepts.
pub(crate) fn tell_mailer(alloc: Global, asked: &[u8], out: &mut Told) -> Result<(), NoMemory> {
    let (letters, messages) = cut_word(asked);
    let mut mailer = MemMailer::new(alloc, answers_of(alloc, letters)?);
    for message in messages.split(|byte| *byte == b' ') {
        tell_handed(mailer.hand(&message_of(alloc, message)?), out);
    }
    for message in mailer.shown() {
        tell_message(message, out);
    }
    Ok(())
}
