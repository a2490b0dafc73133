//! What is told of commands and six numbers.

use crate::lines::telling::add_text;
use arrayvec::ArrayVec;
use ftp_lines::{find_six, read_command, read_six, write_six};
use fw_types::NoMemory;
use lines_of_rows::{Told, add, add_number, add_word, numbers_of};
use std::alloc::Global;

/// `command LINE => VERB [ARGUMENT]`. `-` is none.
pub(crate) fn tell_command(asked: &[u8], out: &mut Told) {
    match read_command(asked) {
        Some(command) => {
            add(out, command.verb.text());
            add_text(out, command.arg);
        }
        None => add(out, b"-"),
    }
}

fn tell_six(six: Option<([u8; 4], u16)>, out: &mut Told) {
    let Some(found) = six else {
        return add(out, b"-");
    };
    let addr = found.0;
    for octet in addr.iter() {
        add_number(out, u64::from(*octet));
    }
    add_word(out, b"port");
    add_number(out, u64::from(found.1));
}

/// `read-six TEXT => A B C D port PORT`. `-` is none.
pub(crate) fn tell_read_six(asked: &[u8], out: &mut Told) {
    tell_six(read_six(asked), out);
}

/// `find-six TEXT => A B C D port PORT`. `-` is none.
pub(crate) fn tell_find_six(asked: &[u8], out: &mut Told) {
    tell_six(find_six(asked), out);
}

fn octet_of(number: u64) -> u8 {
    (number % 256) as u8
}

/// `write-six A,B,C,D,PORT => TEXT`, where it is also written over another text, and read back.
pub(crate) fn tell_write_six(alloc: Global, asked: &[u8], out: &mut Told) -> Result<(), NoMemory> {
    let numbers = numbers_of(alloc, asked)?;
    let [a, b, c, d, port] = numbers.as_slice() else {
        add(out, b"no five numbers");
        return Ok(());
    };
    let addr = [octet_of(*a), octet_of(*b), octet_of(*c), octet_of(*d)];
    let port = (*port % 65536) as u16;
    let mut text = ArrayVec::new();
    write_six([255; 4], 65535, &mut text);
    write_six(addr, port, &mut text);
    add(out, text.as_slice());
    if read_six(text.as_slice()) != Some((addr, port)) {
        add_word(out, b"read otherwise");
    }
    Ok(())
}
