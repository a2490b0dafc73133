//! What follows a command, and the request that it makes.
ghost use Rattle.std.specs.Prelude.{◌≡◌};
ghost use Rattle.fw_types.specs.Name.{name_of};
ghost use Rattle.otp_md5.specs.Hexadecimal.{read_of};
ghost use Rattle.authsrv_lines.specs.Words.{has_none, one_of, two_of, one_or_two, text_after, words};
ghost use Rattle.authsrv_lines.specs.Request.{adduser_of, adduser_with, wire_alone, count_of, digest_alone, digest_of, digest_word, hash_of, expire_request, group_none, group_request, group_some, named_request_of, operation_request_of, otp_of, otp_with, password_of, proto_request, proto_named, response_of, service_named};

use crate::command::{Command, Named};
use crate::words::{behind_blank, has_no_word, next_word, one_or_two_words, one_word, two_words};
use crate::{Wire, WireFault};
use auth_events::{OpService, OtpNumber, Request};
use auth_records::{LongName, Proto, Seed};
use fw_types::{Host, Name, read_number};
use md5::{Digest, Md5};
use otp_md5::read_hex;

/// The name of a user alone.
pub(crate) fn read_named(named: Named, rest: &[u8]) -> Result<Wire, WireFault>
    ensures { result ≡ named_request_of named (one_of (words rest.now)) }
{
    let Some(text) = one_word(rest) else {
        return Err(WireFault::Words);
    };
    let Some(name) = Name::read(text) else {
        return Err(WireFault::BadName);
    };
    Ok(Wire::Ask(named.request(name)))
}

/// Any text, which a blank precedes.
pub(crate) fn read_response(rest: &[u8]) -> Result<Wire, WireFault>
    ensures { result ≡ response_of (text_after 0 rest.now) }
{
    let Some(text) = behind_blank(rest) else {
        return Err(WireFault::Words);
    };
    Ok(Wire::Ask(Request::Response {
        hash: Md5::digest(text),
        word: read_hex(text),
    }))
}

// The digest that 32 hexadecimal digits are.
fn read_hash(text: &[u8]) -> Option<[u8; 16]>
    ensures { result ≡ hash_of text.now }
{
    let mut hash = [0; 16];
    match hex::decode_to_slice(text, &mut hash) {
        Ok(()) => Some(hash),
        Err(_) => None,
    }
}

fn digest_alone(hash: &[u8]) -> Result<Wire, WireFault>
    ensures { result ≡ digest_alone (hash_of hash.now) }
{
    match read_hash(hash) {
        Some(hash) => Ok(Wire::Ask(Request::Response { hash, word: None })),
        None => Err(WireFault::Words),
    }
}

fn digest_word(hash: &[u8], word: &[u8]) -> Result<Wire, WireFault>
    ensures { result ≡ digest_word (hash_of hash.now) (read_of word.now) }
{
    let Some(hash) = read_hash(hash) else {
        return Err(WireFault::Words);
    };
    let Some(word) = read_hex(word) else {
        return Err(WireFault::Words);
    };
    Ok(Wire::Ask(Request::Response {
        hash,
        word: Some(word),
    }))
}

/// The digest of a response, and the one-time password that it was, or nothing.
pub(crate) fn read_digest(rest: &[u8]) -> Result<Wire, WireFault>
    ensures { result ≡ digest_of (one_or_two (words rest.now)) }
{
    let Some((hash, word)) = one_or_two_words(rest) else {
        return Err(WireFault::Words);
    };
    match word {
        Some(word) => digest_word(hash, word),
        None => digest_alone(hash),
    }
}

fn read_service(text: &[u8]) -> Option<OpService>
    ensures { result ≡ service_named text.now }
{
    if text == b"tn-gw".as_slice() {
        Some(OpService::Telnet)
    } else if text == b"rlogin-gw".as_slice() {
        Some(OpService::Rlogin)
    } else if text == b"ftp-gw".as_slice() {
        Some(OpService::Ftp)
    } else {
        None
    }
}

/// A gateway and a host.
pub(crate) fn read_operation(rest: &[u8]) -> Result<Wire, WireFault>
    ensures { result ≡ operation_request_of (two_of (words rest.now)) }
{
    let Some((service, host)) = two_words(rest) else {
        return Err(WireFault::Words);
    };
    let Some(service) = read_service(service) else {
        return Err(WireFault::Words);
    };
    let Some(host) = Host::read(host) else {
        return Err(WireFault::Words);
    };
    Ok(Wire::Ask(Request::Operation { service, host }))
}

fn adduser_with(name: &[u8], text: &[u8]) -> Result<Wire, WireFault>
    ensures { result ≡ adduser_with name.now text.now }
{
    let Some(long) = LongName::read(text) else {
        return Err(WireFault::Words);
    };
    let Some(name) = Name::read(name) else {
        return Err(WireFault::BadName);
    };
    Ok(Wire::Ask(Request::Adduser { name, long }))
}

/// The name of a user, and a long name, which is empty where no blank follows the name.
pub(crate) fn read_adduser(rest: &[u8]) -> Result<Wire, WireFault>
    ensures { result ≡ adduser_of (words rest.now) (text_after 1 rest.now) }
{
    let Some((name, rest)) = next_word(rest) else {
        return Err(WireFault::Words);
    };
    match behind_blank(rest) {
        Some(text) => adduser_with(name, text),
        None => adduser_with(name, b""),
    }
}

fn group_none(name: &[u8]) -> Result<Wire, WireFault>
    ensures { result ≡ group_none (name_of name.now) }
{
    match Name::read(name) {
        Some(name) => Ok(Wire::Ask(Request::Group { name, group: None })),
        None => Err(WireFault::BadName),
    }
}

fn group_some(name: &[u8], group: &[u8]) -> Result<Wire, WireFault>
    ensures { result ≡ group_some (name_of name.now) (name_of group.now) }
{
    let Some(name) = Name::read(name) else {
        return Err(WireFault::BadName);
    };
    let Some(group) = Name::read(group) else {
        return Err(WireFault::BadName);
    };
    Ok(Wire::Ask(Request::Group {
        name,
        group: Some(group),
    }))
}

/// The name of a user, and that of a group or nothing.
pub(crate) fn read_group(rest: &[u8]) -> Result<Wire, WireFault>
    ensures { result ≡ group_request (one_or_two (words rest.now)) }
{
    let Some((name, group)) = one_or_two_words(rest) else {
        return Err(WireFault::Words);
    };
    match group {
        Some(group) => group_some(name, group),
        None => group_none(name),
    }
}

/// `plain`, `otp` or `none`.
pub(crate) fn read_proto_name(text: &[u8]) -> Option<Proto>
    ensures { result ≡ proto_named text.now }
{
    if text == b"plain".as_slice() {
        Some(Proto::Plain)
    } else if text == b"otp".as_slice() {
        Some(Proto::Otp)
    } else if text == b"none".as_slice() {
        Some(Proto::None)
    } else {
        None
    }
}

/// The name of a user, and `plain`, `otp` or `none`.
pub(crate) fn read_proto(rest: &[u8]) -> Result<Wire, WireFault>
    ensures { result ≡ proto_request (two_of (words rest.now)) }
{
    let Some((name, proto)) = two_words(rest) else {
        return Err(WireFault::Words);
    };
    let Some(proto) = read_proto_name(proto) else {
        return Err(WireFault::Words);
    };
    let Some(name) = Name::read(name) else {
        return Err(WireFault::BadName);
    };
    Ok(Wire::Ask(Request::Proto { name, proto }))
}

/// The name of a user, and any text, which a blank precedes.
pub(crate) fn read_password(rest: &[u8]) -> Result<Wire, WireFault>
    ensures { result ≡ password_of (words rest.now) (text_after 1 rest.now) }
{
    let Some((name, rest)) = next_word(rest) else {
        return Err(WireFault::Words);
    };
    let Some(text) = behind_blank(rest) else {
        return Err(WireFault::Words);
    };
    let Some(name) = Name::read(name) else {
        return Err(WireFault::BadName);
    };
    Ok(Wire::Password {
        name,
        hash: Md5::digest(text),
    })
}

fn read_count(text: &[u8]) -> Option<OtpNumber>
    ensures { result ≡ count_of text.now }
{
    match read_number(text) {
        Some(number) if number <= 9999 => OtpNumber::of(number as u32),
        _ => None,
    }
}

fn otp_with(name: &[u8], number: &[u8], word_seed: &[u8], text: &[u8]) -> Result<Wire, WireFault>
    ensures { result ≡ otp_with name.now number.now word_seed.now text.now }
{
    let Some(number) = read_count(number) else {
        return Err(WireFault::Words);
    };
    let Some(word_seed) = Seed::read(word_seed) else {
        return Err(WireFault::Words);
    };
    let Some(kept) = read_hex(text) else {
        return Err(WireFault::Words);
    };
    let Some(name) = Name::read(name) else {
        return Err(WireFault::BadName);
    };
    Ok(Wire::Ask(Request::Otp {
        name,
        number,
        word_seed,
        kept,
    }))
}

/// The name of a user, a count, a seed, and a one-time password, which a blank precedes.
pub(crate) fn read_otp(rest: &[u8]) -> Result<Wire, WireFault>
    ensures { result ≡ otp_of (words rest.now) (text_after 3 rest.now) }
{
    let Some((name, rest)) = next_word(rest) else {
        return Err(WireFault::Words);
    };
    let Some((number, rest)) = next_word(rest) else {
        return Err(WireFault::Words);
    };
    let Some((word_seed, rest)) = next_word(rest) else {
        return Err(WireFault::Words);
    };
    let Some(text) = behind_blank(rest) else {
        return Err(WireFault::Words);
    };
    otp_with(name, number, word_seed, text)
}

/// The name of a user, and a number of 1 to 10 digits.
pub(crate) fn read_expire(rest: &[u8]) -> Result<Wire, WireFault>
    ensures { result ≡ expire_request (two_of (words rest.now)) }
{
    let Some((name, until)) = two_words(rest) else {
        return Err(WireFault::Words);
    };
    let Some(until) = read_number(until) else {
        return Err(WireFault::Words);
    };
    let Some(name) = Name::read(name) else {
        return Err(WireFault::BadName);
    };
    Ok(Wire::Ask(Request::Expire { name, until }))
}

/// Nothing.
pub(crate) fn read_alone(wire: Wire, rest: &[u8]) -> Result<Wire, WireFault>
    ensures { result ≡ wire_alone wire (has_none (words rest.now)) }
{
    if has_no_word(rest) {
        Ok(wire)
    } else {
        Err(WireFault::Words)
    }
}
