//! Texts that take no memory. What doesn't fit is left out.

use arrayvec::ArrayVec;
use itoa::Buffer;

/// A text.
pub(crate) type Text = ArrayVec<u8, 16384>;

/// Adds bytes.
pub(crate) fn add(out: &mut Text, bytes: &[u8]) {
    let _ = out.try_extend_from_slice(bytes);
}

/// Adds a number in decimal.
pub(crate) fn add_number(out: &mut Text, number: u64) {
    let mut buffer = Buffer::new();
    add(out, buffer.format(number).as_bytes());
}

fn digit(half: u8) -> u8 {
    match half {
        0..=9 => b'0'.wrapping_add(half),
        _ => b'a'.wrapping_add(half).wrapping_sub(10),
    }
}

fn add_digits(out: &mut Text, byte: u8) {
    add(out, &[digit(byte / 16), digit(byte % 16)]);
}

/// Adds the hexadecimal digits of the bytes.
pub(crate) fn add_hex(out: &mut Text, bytes: &[u8]) {
    for byte in bytes {
        add_digits(out, *byte);
    }
}

fn add_byte(out: &mut Text, byte: u8) {
    match byte {
        b'\n' => add(out, b"\\n"),
        b'\\' => add(out, b"\\\\"),
        b' '..=b'~' => add(out, &[byte]),
        _ => {
            add(out, b"\\x");
            add_digits(out, byte);
        }
    }
}

/// Adds a text, in which a line's end and what is no printing character stands as an escape.
pub(crate) fn add_escaped(out: &mut Text, text: &[u8]) {
    for byte in text {
        add_byte(out, *byte);
    }
}
