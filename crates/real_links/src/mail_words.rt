//! The words with which a message is handed to a program.
ghost use Rattle.std.specs.Prelude.{◌≡◌, ◌++◌, ◌∷◌, [], IfOk};
ghost use Rattle.std.specs.List.{list_any};
ghost use Rattle.real_links.specs.MailerPrograms.{is_unfit, is_unfit_message, is_zero, mail_args, sender_word};

use fw_mail::Message;
use fw_types::{NoMemory, Octets, OctetsList};
use std::alloc::Global;

fn has_zero(text: &[u8]) -> bool
    ensures { result ≡ list_any is_zero text.now }
{
    text.iter().any(|byte| *byte == 0)
}

// Whether a program could take the text for an option, or can't be given it.
fn is_unfit(text: &[u8]) -> bool
    ensures { result ≡ is_unfit text.now }
{
    match text {
        [] => false,
        [b'-', ..] => true,
        _ => has_zero(text),
    }
}

fn any_unfit(texts: &[Octets]) -> bool
    ensures { result ≡ list_any is_unfit texts.now }
{
    texts.iter().any(|text| is_unfit(text.bytes()))
}

/// Whether the sender or a recipient is no text that a program can be given as such.
pub(crate) fn is_unfit_message(message: &Message) -> bool
    ensures { result ≡ is_unfit_message message.now }
{
    if is_unfit(message.from.bytes()) {
        return true;
    }
    any_unfit(message.rcpts.as_slice())
}

// The word for a sender.
fn sender_word(from: &[u8]) -> &[u8]
    ensures { result.now ≡ sender_word from.now }
{
    if from.len() == 0 {
        return b"<>".as_slice();
    }
    from
}

// Adds an equal text.
fn add(alloc: Global, words: &mut OctetsList, text: &[u8]) -> Result<(), NoMemory>
    ensures { IfOk result (λ _. words.new ≡ words.old ++ text.now ∷ []) }
{
    match words.push(Octets::copy(alloc, text)?) {
        Ok(()) => Ok(()),
        Err(_) => Err(NoMemory),
    }
}

// Adds equal texts, in order.
fn add_all(alloc: Global, words: &mut OctetsList, texts: &[Octets]) -> Result<(), NoMemory>
    ensures { IfOk result (λ _. words.new ≡ words.old ++ texts.now) }
{
    for text in texts {
        add(alloc, words, text.bytes())?;
    }
    Ok(())
}

/// The arguments with which a message is handed over.
pub(crate) fn mail_args(alloc: Global, message: &Message) -> Result<OctetsList, NoMemory>
    ensures { IfOk result (λ args. args ≡ mail_args message.now) }
{
    let mut args = OctetsList::new(alloc);
    add(alloc, &mut args, b"-f")?;
    add(alloc, &mut args, sender_word(message.from.bytes()))?;
    add_all(alloc, &mut args, message.rcpts.as_slice())?;
    Ok(args)
}
