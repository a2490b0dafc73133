//! What is told with each byte at a place.

use crate::lines::kinds::tell_text;
use arrayvec::ArrayVec;
use lines_of_rows::{Told, add_number, add_word, cut, cut_word, number_of};
use std::str;

// Whether what is told ends so if the byte stands at the place of the text.
fn is_told(kind: &str, text: &[u8], at: usize, byte: u8, wanted: &[u8]) -> bool {
    let mut bytes: ArrayVec<u8, 64> = ArrayVec::new();
    for (place, one) in text.iter().enumerate() {
        let _ = bytes.try_push(if place == at { byte } else { *one });
    }
    let mut told = Told::new();
    tell_text(kind, bytes.as_slice(), &mut told);
    told.as_slice().ends_with(wanted)
}

fn begin_range(out: &mut Told, byte: u8) {
    add_number(out, u64::from(byte));
    add_word(out, b"to");
}

/// `every AT TOLD;KIND TEXT => FIRST to LAST ..`: the bytes of which each, at this place of the text, has a row of
/// this kind told something that ends so. The text has at most 64 bytes.
pub(crate) fn tell_every(asked: &[u8], out: &mut Told) {
    let (at, rest) = cut_word(asked);
    let (wanted, rest) = cut(rest, b';');
    let (kind, text) = cut_word(rest);
    let at = number_of(at) as usize;
    let kind = str::from_utf8(kind).unwrap_or("");
    let mut is_open = false;
    for byte in 0..=255u8 {
        let is_so = is_told(kind, text, at, byte, wanted);
        if is_so && !is_open {
            begin_range(out, byte);
        }
        if !is_so && is_open {
            add_number(out, u64::from(byte.wrapping_sub(1)));
        }
        is_open = is_so;
    }
    if is_open {
        add_number(out, 255);
    }
}
