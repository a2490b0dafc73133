//! Messages that a mailer took, as text.

use fw_mail::Mailer;
use fw_types::{Message, NoMemory};
use std::alloc::Global;

/// Adds a message: its sender, its recipients behind `>` and `,`, its body behind `:`, and `;`.
pub(crate) fn add_message(out: &mut Vec<u8>, message: &Message) -> Result<(), NoMemory> {
    out.extend_from_slice(message.from.bytes())?;
    let mut mark = b'>';
    for rcpt in message.rcpts.as_slice() {
        out.push(mark)?;
        out.extend_from_slice(rcpt.bytes())?;
        mark = b',';
    }
    out.push(b':')?;
    out.extend_from_slice(message.body.bytes())?;
    out.push(b';')?;
    Ok(())
}

/// The messages that the first mailer shows.
pub(crate) fn shown_by(alloc: Global, mailers: &[Box<dyn Mailer>]) -> Result<Vec<u8>, NoMemory> {
    let mut out = Vec::new(alloc);
    if let Some(mailer) = mailers.first() {
        for message in mailer.shown() {
            add_message(&mut out, message)?;
        }
    }
    Ok(out)
}
