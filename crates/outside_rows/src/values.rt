//! What is told of the texts of values. `-` is none.

use arrayvec::ArrayVec;
use fw_types::{
    Dest, Host, HostName, Name, NoMemory, Octets, OctetsList, Peer, Verb, VerbList, read_number,
    read_quad,
};
use lines_of_rows::{Told, add, add_number, add_word, cut_word};
use std::alloc::Global;

/// `name TEXT => TEXT`.
pub(crate) fn tell_name(asked: &[u8], out: &mut Told) {
    match Name::read(asked) {
        Some(name) => add(out, name.twin().text()),
        None => add(out, b"-"),
    }
}

/// `order NAME NAME => before`, or `not before`.
pub(crate) fn tell_order(asked: &[u8], out: &mut Told) {
    let (first, second) = cut_word(asked);
    let (Some(first), Some(second)) = (Name::read(first), Name::read(second)) else {
        return add(out, b"no names");
    };
    if first.is_before(&second) {
        add(out, b"before");
    } else {
        add(out, b"not before");
    }
}

/// `host TEXT => TEXT`.
pub(crate) fn tell_host(asked: &[u8], out: &mut Told) {
    let mut text = ArrayVec::new();
    match Host::read(asked) {
        Some(host) => {
            host.twin().write(&mut text);
            add(out, text.as_slice());
        }
        None => add(out, b"-"),
    }
}

/// `peer ADDRESS NAME => TEXT`.
pub(crate) fn tell_peer(asked: &[u8], out: &mut Told) {
    let (addr, name) = cut_word(asked);
    let peer = Peer {
        addr: read_quad(addr),
        name: if name == b"-".as_slice() {
            None
        } else {
            HostName::read(name)
        },
    };
    let mut text = ArrayVec::new();
    peer.twin().write(&mut text);
    add(out, text.as_slice());
}

/// `party HOST => TEXT`: the party of a destination at this host, as a peer is written.
pub(crate) fn tell_party(asked: &[u8], out: &mut Told) {
    let Some(host) = Host::read(asked) else {
        return add(out, b"-");
    };
    let mut text = ArrayVec::new();
    Dest { host, port: 23 }.twin().party().write(&mut text);
    add(out, text.as_slice());
}

/// `verb TEXT => TEXT`.
pub(crate) fn tell_verb(asked: &[u8], out: &mut Told) {
    match Verb::read(asked) {
        Some(verb) => add(out, verb.twin().text()),
        None => add(out, b"-"),
    }
}

/// `verbs TEXT TEXT => N TEXT TEXT`.
pub(crate) fn tell_verbs(asked: &[u8], out: &mut Told) {
    let mut list = VerbList::new();
    add_number(out, list.verbs().len() as u64);
    for text in asked.split(|byte| *byte == b' ') {
        if let Some(verb) = Verb::read(text)
            && list.verbs().len() < 32
        {
            list.push(verb);
        }
    }
    for verb in list.verbs() {
        add_word(out, verb.text());
    }
}

/// `number TEXT => NUMBER`.
pub(crate) fn tell_number(asked: &[u8], out: &mut Told) {
    match read_number(asked) {
        Some(number) => add_number(out, number),
        None => add(out, b"-"),
    }
}

/// `port TEXT => NUMBER`, and `port-number TEXT => NUMBER`.
pub(crate) fn tell_port(port: Option<u16>, out: &mut Told) {
    match port {
        Some(port) => add_number(out, u64::from(port)),
        None => add(out, b"-"),
    }
}

// Tells how many there are, each, and the one at place 1.
fn tell_list(list: &OctetsList, out: &mut Told) {
    add_number(out, list.len() as u64);
    for one in list.as_slice() {
        add_word(out, one.bytes());
    }
    if 1 < list.len() {
        add_word(out, b"second");
        add_word(out, list.get(1).bytes());
    }
}

/// `octets TEXT TEXT => empty N TEXT TEXT second TEXT`.
pub(crate) fn tell_octets(alloc: Global, asked: &[u8], out: &mut Told) -> Result<(), NoMemory> {
    let mut list = OctetsList::new(alloc);
    if list.is_empty() {
        add(out, b"empty");
    }
    for text in asked.split(|byte| *byte == b' ') {
        if list.push(Octets::copy(alloc, text)?).is_err() {
            return Err(NoMemory);
        }
    }
    tell_list(&list, out);
    Ok(())
}
