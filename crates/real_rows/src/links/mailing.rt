//! What is told of a program that mail is handed to.

use crate::links::launching::args_of;
use fw_mail::{Handed, Mailer, Message};
use fw_types::{NoMemory, Octets};
use lines_of_rows::{Told, add_word, cut, number_of};
use real_links::MailerProgram;
use std::alloc::Global;

// A body of so many bytes.
fn body_of(alloc: Global, count: u64) -> Result<Octets, NoMemory> {
    let mut body = Vec::new(alloc);
    for _ in 0..count {
        body.push(b'x')?;
    }
    Octets::copy(alloc, &body)
}

/// `mail SECONDS,BYTES,PROGRAM,FROM,RCPT,.. => ANSWER`, of a body of so many bytes.
pub(crate) fn tell_mail(
    rt: HostRuntime,
    alloc: Global,
    asked: &[u8],
    out: &mut Told,
) -> Result<(), NoMemory> {
    let (seconds, rest) = cut(asked, b',');
    let (count, rest) = cut(rest, b',');
    let (program, rest) = cut(rest, b',');
    let (from, rcpts) = cut(rest, b',');
    let message = Message {
        from: Octets::copy(alloc, from)?,
        rcpts: args_of(alloc, rcpts)?,
        body: body_of(alloc, number_of(count))?,
    };
    let seconds = u32::try_from(number_of(seconds)).unwrap_or(0);
    let mut mailer = MailerProgram::new(rt, program, b".", seconds)?;
    let word = match mailer.hand(&message) {
        Handed::Accepted => b"accepted".as_slice(),
        Handed::Refused => b"refused".as_slice(),
        Handed::Failed => b"failed".as_slice(),
        Handed::NoMemory => b"no-memory".as_slice(),
    };
    add_word(out, word);
    Ok(())
}
