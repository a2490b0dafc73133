//! What is told of records' bytes.

use auth_records::{LongName, Otp, Plain, Proto, Record, Seed, Wiz, decode, encode};
use fw_types::{Name, NoMemory};
use lines_of_rows::{Told, add, add_hex, add_number, add_word, cut_word, from_hex, number_of};
use std::alloc::Global;
use std::str;

fn bytes_of(alloc: Global, digits: &[u8]) -> Result<Vec<u8>, NoMemory> {
    from_hex(alloc, str::from_utf8(digits).unwrap_or(""))
}

/// Tells a group, or `-`.
pub(crate) fn tell_group(group: &Option<Name>, out: &mut Told) {
    add_word(out, b"group");
    match group {
        Some(group) => add_word(out, group.text()),
        None => add_word(out, b"-"),
    }
}

/// The protocol's word.
pub(crate) fn proto_word(proto: Proto) -> &'static [u8] {
    match proto {
        Proto::None => b"none",
        Proto::Plain => b"plain",
        Proto::Otp => b"otp",
    }
}

fn wiz_word(wiz: Wiz) -> &'static [u8] {
    match wiz {
        Wiz::None => b"none",
        Wiz::Group => b"group",
        Wiz::Super => b"super",
    }
}

/// Tells a long name, in brackets.
pub(crate) fn tell_long_name(long: &LongName, out: &mut Told) {
    add_word(out, b"[");
    add(out, long.text());
    add(out, b"]");
}

/// Tells the protocol, whether the user may log in, and what kind of wizard they are.
pub(crate) fn tell_standing(proto: Proto, enabled: bool, wiz: Wiz, out: &mut Told) {
    add_word(out, b"proto");
    add_word(out, proto_word(proto));
    if enabled {
        add_word(out, b"enabled");
    } else {
        add_word(out, b"disabled");
    }
    add_word(out, b"wiz");
    add_word(out, wiz_word(wiz));
}

/// Tells the moments of the last right response and of the end.
pub(crate) fn tell_dates(last: u64, expires: u64, out: &mut Told) {
    add_word(out, b"last");
    add_number(out, last);
    add_word(out, b"expires");
    add_number(out, expires);
}

fn tell_plain(plain: &Option<Plain>, out: &mut Told) {
    add_word(out, b"plain");
    match plain {
        Some(plain) => {
            add_hex(out, &plain.salt);
            add_hex(out, &plain.hash);
        }
        None => add_word(out, b"-"),
    }
}

fn tell_otp(otp: &Option<Otp>, out: &mut Told) {
    add_word(out, b"otp");
    match otp {
        Some(otp) => {
            add_number(out, u64::from(otp.number));
            add_word(out, otp.word_seed.text());
            add_hex(out, &otp.kept.to_be_bytes());
        }
        None => add_word(out, b"-"),
    }
}

fn tell_fields(record: &Record, out: &mut Told) {
    add_word(out, record.name.text());
    tell_long_name(&record.long, out);
    tell_group(&record.group, out);
    tell_standing(record.proto, record.enabled, record.wiz, out);
    add_word(out, b"fails");
    add_number(out, u64::from(record.fails));
    add_word(out, b"since");
    add_number(out, record.since);
    tell_dates(record.last, record.expires, out);
    tell_plain(&record.plain, out);
    tell_otp(&record.otp, out);
}

// Tells of a record that was read of these bytes.
fn tell_read(alloc: Global, record: &Record, bytes: &[u8], out: &mut Told) -> Result<(), NoMemory> {
    tell_fields(&record.twin(), out);
    let written = encode(alloc, record)?;
    if written.bytes() != bytes {
        add_word(out, b"now");
        add_hex(out, written.bytes());
    }
    Ok(())
}

/// `record DIGITS => FIELDS`, and behind them `now DIGITS` where the record is encoded to other bytes, as one of version 1 is,
/// or `bad at PLACE`.
pub(crate) fn tell_record(alloc: Global, asked: &[u8], out: &mut Told) -> Result<(), NoMemory> {
    let bytes = bytes_of(alloc, asked)?;
    match decode(&bytes) {
        Ok(record) => tell_read(alloc, &record, &bytes, out)?,
        Err(fault) => tell_bad(fault.at, out),
    }
    Ok(())
}

fn tell_bad(at: usize, out: &mut Told) {
    add(out, b"bad at");
    add_number(out, at as u64);
}

fn tell_bytes(bytes: &[u8], out: &mut Told) {
    match decode(bytes) {
        Ok(_) => add(out, b"good"),
        Err(fault) => tell_bad(fault.at, out),
    }
}

/// `good DIGITS => good`, or `bad at PLACE`.
pub(crate) fn tell_good(alloc: Global, asked: &[u8], out: &mut Told) -> Result<(), NoMemory> {
    tell_bytes(&bytes_of(alloc, asked)?, out);
    Ok(())
}

/// `base DIGITS => N bytes`: the record that further rows change.
pub(crate) fn base_of(alloc: Global, asked: &[u8], out: &mut Told) -> Result<Vec<u8>, NoMemory> {
    let bytes = bytes_of(alloc, asked)?;
    add_number(out, bytes.len() as u64);
    add_word(out, b"bytes");
    Ok(bytes)
}

/// `damage PLACE BYTE`, `front LENGTH` and `behind BYTE`: the base with a byte put at a place, its front of
/// this length, and the base with a byte behind it, each `=> good` or `=> bad at PLACE`.
pub(crate) fn tell_base(
    alloc: Global,
    base: &[u8],
    kind: &str,
    asked: &[u8],
    out: &mut Told,
) -> Result<(), NoMemory> {
    let (first, second) = cut_word(asked);
    let mut bytes = Vec::from_slice(alloc, base)?;
    let place = number_of(first) as usize;
    let byte = (number_of(second) % 256) as u8;
    match kind {
        "front" => bytes.truncate(place),
        "behind" => bytes.push((number_of(first) % 256) as u8)?,
        _ if place < bytes.len() => bytes[place] = byte,
        _ => return Ok(()),
    }
    tell_bytes(&bytes, out);
    Ok(())
}

/// `seed TEXT => TEXT`. `-` is none.
pub(crate) fn tell_seed(asked: &[u8], out: &mut Told) {
    match Seed::read(asked) {
        Some(seed) => add(out, seed.twin().text()),
        None => add(out, b"-"),
    }
}

/// `long TEXT => [TEXT]`. `-` is none.
pub(crate) fn tell_long(asked: &[u8], out: &mut Told) {
    match LongName::read(asked) {
        Some(long) => tell_long_name(&long.twin(), out),
        None => add(out, b"-"),
    }
}
