//! What is told of the lines of clients.

use crate::records::records::{proto_word, tell_long_name};
use arrayvec::ArrayVec;
use auth_events::{OpService, Request};
use authsrv_lines::{Wire, read_request, wire_text};
use fw_types::{Host, Name};
use lines_of_rows::{Told, add, add_hex, add_number, add_word};

fn tell_named(command: &[u8], name: &Name, out: &mut Told) {
    add(out, command);
    add_word(out, name.text());
}

fn tell_operation(service: OpService, host: &Host, out: &mut Told) {
    let service: &[u8] = match service {
        OpService::Telnet => b"operation tn-gw",
        OpService::Rlogin => b"operation rlogin-gw",
        OpService::Ftp => b"operation ftp-gw",
    };
    let mut text = ArrayVec::new();
    host.write(&mut text);
    add(out, service);
    add_word(out, text.as_slice());
}

fn tell_response(hash: &[u8], word: Option<u64>, out: &mut Told) {
    add(out, b"response");
    add_hex(out, hash);
    match word {
        Some(word) => add_hex(out, &word.to_be_bytes()),
        None => add_word(out, b"-"),
    }
}

fn tell_group(name: &Name, group: &Option<Name>, out: &mut Told) {
    tell_named(b"group", name, out);
    match group {
        Some(group) => add_word(out, group.text()),
        None => add_word(out, b"-"),
    }
}

// Tells a request that names a user and no more.
fn tell_short(request: &Request, out: &mut Told) {
    match request {
        Request::Authenticate { name } => tell_named(b"authenticate", name, out),
        Request::Deluser { name } => tell_named(b"deluser", name, out),
        Request::Enable { name } => tell_named(b"enable", name, out),
        Request::Disable { name } => tell_named(b"disable", name, out),
        Request::Wiz { name } => tell_named(b"wiz", name, out),
        Request::Unwiz { name } => tell_named(b"unwiz", name, out),
        Request::Superwiz { name } => tell_named(b"superwiz", name, out),
        Request::Display { name } => tell_named(b"display", name, out),
        _ => add(out, b"another request"),
    }
}

fn tell_request(request: &Request, out: &mut Told) {
    match request {
        Request::Response { hash, word } => tell_response(hash, *word, out),
        Request::Operation { service, host } => tell_operation(*service, host, out),
        Request::Group { name, group } => tell_group(name, group, out),
        Request::Adduser { name, long } => {
            tell_named(b"adduser", name, out);
            tell_long_name(long, out);
        }
        Request::Proto { name, proto } => {
            tell_named(b"proto", name, out);
            add_word(out, proto_word(*proto));
        }
        Request::Expire { name, until } => {
            tell_named(b"expire", name, out);
            add_number(out, *until);
        }
        Request::Otp {
            name,
            number,
            word_seed,
            kept,
        } => {
            tell_named(b"otp", name, out);
            add_number(out, u64::from(number.value()));
            add_word(out, word_seed.text());
            add_hex(out, &kept.to_be_bytes());
        }
        _ => tell_short(request, out),
    }
}

/// `line TEXT => REQUEST`, or what the client is told.
pub(crate) fn tell_line(asked: &[u8], out: &mut Told) {
    match read_request(asked) {
        Ok(Wire::Ask(request)) => tell_request(&request.twin(), out),
        Ok(Wire::Password { name, hash }) => {
            tell_named(b"password", &name, out);
            add_hex(out, &hash);
        }
        Ok(Wire::List) => add(out, b"list"),
        Ok(Wire::Quit) => add(out, b"quit"),
        Err(fault) => add(out, fault.text()),
    }
}

// What a line asks for, if it is a request: for the end of the session `Close`.
fn request_of(line: &[u8]) -> Option<Request> {
    match read_request(line) {
        Ok(Wire::Ask(request)) => Some(request),
        Ok(Wire::Quit) => Some(Request::Close),
        Ok(_) | Err(_) => None,
    }
}

/// `wire LINE => LINE`: the line that a gateway asks for what a line asks for. `-` where it has none, with what is then in the
/// buffer.
pub(crate) fn tell_wire(asked: &[u8], out: &mut Told) {
    let Some(request) = request_of(asked) else {
        return add(out, b"no request");
    };
    let mut line = ArrayVec::new();
    if !wire_text(&request, &mut line) {
        add(out, b"-");
    }
    add(out, line.as_slice());
}
