//! What the texts of lines say.

use crate::Why;
use crate::escapes::unescaped;
use crate::line::split_word;
use fw_types::{Host, Name, Octets, read_number};
use std::alloc::Global;

/// A number of up to ten digits.
pub(crate) fn number_of(text: &[u8]) -> Result<u64, Why> {
    read_number(text).ok_or(Why::BadNumber)
}

/// A number of at least 1 that counts bytes.
pub(crate) fn piece_of(text: &[u8]) -> Result<usize, Why> {
    match usize::try_from(number_of(text)?) {
        Ok(piece) if 0 < piece => Ok(piece),
        _ => Err(Why::BadNumber),
    }
}

/// An exit status.
pub(crate) fn status_of(text: &[u8]) -> Result<u8, Why> {
    match u8::try_from(number_of(text)?) {
        Ok(status) => Ok(status),
        Err(_) => Err(Why::BadNumber),
    }
}

/// Numbers with a blank between any two. No text is no number.
pub(crate) fn add_numbers(out: &mut Vec<u64>, text: &[u8]) -> Result<(), Why> {
    if text.is_empty() {
        return Ok(());
    }
    for word in text.split(|byte| *byte == b' ') {
        out.push(number_of(word)?)?;
    }
    Ok(())
}

/// Exit statuses with a blank between any two.
pub(crate) fn add_statuses(out: &mut Vec<u8>, text: &[u8]) -> Result<(), Why> {
    for word in text.split(|byte| *byte == b' ') {
        out.push(status_of(word)?)?;
    }
    Ok(())
}

// A word, which is empty where it is written as two quotes.
fn word_of(alloc: Global, text: &[u8]) -> Result<Octets, Why> {
    if text == b"\"\"".as_slice() {
        return Ok(Octets::of(Vec::new(alloc)));
    }
    Ok(Octets::of(unescaped(alloc, text)?))
}

/// Words with a blank between any two. No text is no word.
pub(crate) fn words_of(alloc: Global, text: &[u8]) -> Result<Vec<Octets>, Why> {
    let mut words = Vec::new(alloc);
    if text.is_empty() {
        return Ok(words);
    }
    for word in text.split(|byte| *byte == b' ') {
        words.push(word_of(alloc, word)?)?;
    }
    Ok(words)
}

fn bytes_of(alloc: Global, digits: &[u8]) -> Result<Octets, Why> {
    match hex::decode(alloc, digits) {
        Ok(bytes) => Ok(Octets::of(bytes)),
        Err(_) => Err(Why::BadHex),
    }
}

fn port_of(text: &[u8]) -> Result<u16, Why> {
    match u16::try_from(number_of(text)?) {
        Ok(port) => Ok(port),
        Err(_) => Err(Why::BadPlace),
    }
}

/// An IPv4 address and a port.
pub(crate) fn place_of(text: &[u8]) -> Result<([u8; 4], u16), Why> {
    let (addr, port) = split_word(text);
    match Host::read(addr) {
        Some(Host::Addr(addr)) => Ok((addr, port_of(port)?)),
        _ => Err(Why::BadPlace),
    }
}

/// A user's name and the bytes of a record.
pub(crate) fn record_of(alloc: Global, text: &[u8]) -> Result<(Name, Octets), Why> {
    let (name, digits) = split_word(text);
    let name = Name::read(name).ok_or(Why::BadName)?;
    Ok((name, bytes_of(alloc, digits)?))
}
