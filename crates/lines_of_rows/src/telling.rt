//! What is told of a row.

use arrayvec::ArrayVec;
use itoa::Buffer;

/// What is told of a row. What doesn't fit is left out.
pub type Told = ArrayVec<u8, 1024>;

/// Adds a text.
pub fn add(out: &mut Told, text: &[u8]) {
    let _ = out.try_extend_from_slice(text);
}

/// Adds a word: behind a space, unless it is the first.
pub fn add_word(out: &mut Told, word: &[u8]) {
    if !out.is_empty() {
        add(out, b" ");
    }
    add(out, word);
}

/// Adds a number in decimal as a word.
pub fn add_number(out: &mut Told, number: u64) {
    let mut buffer = Buffer::new();
    add_word(out, buffer.format(number).as_bytes());
}

/// The hexadecimal digit of four bits.
pub(crate) fn digit(half: u8) -> u8 {
    match half {
        0..=9 => b'0'.wrapping_add(half),
        _ => b'a'.wrapping_add(half).wrapping_sub(10),
    }
}

/// Adds the hexadecimal digits of the bytes as a word.
pub fn add_hex(out: &mut Told, bytes: &[u8]) {
    add_word(out, b"");
    for byte in bytes {
        add(out, &[digit(*byte / 16), digit(*byte % 16)]);
    }
}
