//! What is done with files besides: steps that most kinds of row have.

use crate::telling::{tell_bytes, tell_done, tell_unknown};
use lines_of_rows::{Told, add_number, add_word, cut_word, number_of};
use std::os::unix::fs::MetadataExt;
use std::{fs, io, str};

/// Files and folders, and the bytes of the one that was noted last.
#[derive(Drop)]
pub(crate) struct System {
    rt: HostRuntime,
    noted: Vec<u8>,
}

/// The path of these bytes.
pub(crate) fn path_of(bytes: &[u8]) -> &str {
    str::from_utf8(bytes).unwrap_or("")
}

// The mode's digits in base 8.
fn digits_of(mode: u32) -> u64 {
    let (high, middle, low) = (mode / 64 % 8, mode / 8 % 8, mode % 8);
    u64::from(100 * high + 10 * middle + low)
}

// The mode of what stands there.
fn mode_of(rt: &HostRuntime, path: &str) -> io::Result<u32> {
    Ok(fs::metadata(rt, path)?.mode())
}

fn tell_mode(rt: &HostRuntime, path: &str, out: &mut Told) {
    match mode_of(rt, path) {
        Ok(mode) => add_number(out, digits_of(mode)),
        Err(_) => add_word(out, b"missing"),
    }
}

// The bytes of a file, or none.
fn bytes_of(rt: &HostRuntime, path: &str) -> Vec<u8> {
    match fs::read(rt, path) {
        Ok(bytes) => bytes,
        Err(_) => Vec::new(rt.alloc()),
    }
}

fn write(rt: &HostRuntime, path: &str, bytes: &[u8]) -> bool {
    fs::write(rt, path, bytes).is_ok()
}

// Sets a byte of a file to 0, where it is so long.
fn spoil(rt: &HostRuntime, path: &str, place: u64) -> bool {
    let mut bytes = bytes_of(rt, path);
    match usize::try_from(place) {
        Ok(place) => match bytes.get_mut(place) {
            Some(byte) => *byte = 0,
            None => return false,
        },
        Err(_) => return false,
    }
    write(rt, path, bytes.as_slice())
}

impl System {
    pub(crate) fn new(rt: HostRuntime) -> System {
        System {
            rt,
            noted: Vec::new(rt.alloc()),
        }
    }

    fn tell_noted(&self, path: &str, out: &mut Told) {
        if bytes_of(&self.rt, path).as_slice() == self.noted.as_slice() {
            add_word(out, b"same");
        } else {
            add_word(out, b"other");
        }
    }

    /// A step with a file or a folder. `clean`, `remove` and `note` tell nothing.
    pub(crate) fn step(&mut self, word: &[u8], rest: &[u8], out: &mut Told) {
        let (first, text) = cut_word(rest);
        let path = path_of(first);
        match word {
            b"clean" => {
                let _ = fs::remove_dir_all(&self.rt, path);
            }
            b"remove" => {
                let _ = fs::remove_file(&self.rt, path);
            }
            b"note" => self.noted = bytes_of(&self.rt, path),
            b"same" => self.tell_noted(path, out),
            b"folder" => tell_done(fs::create_dir(&self.rt, path).is_ok(), out),
            b"mode" => tell_mode(&self.rt, path, out),
            b"bytes" => tell_bytes(bytes_of(&self.rt, path).as_slice(), out),
            b"write" => tell_done(write(&self.rt, path, text), out),
            b"spoil" => tell_done(spoil(&self.rt, path, number_of(text)), out),
            _ => tell_unknown(out),
        }
    }
}
