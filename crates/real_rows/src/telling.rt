//! Words of what is told.

use lines_of_rows::{Told, add, add_word};

/// Whether something was done.
pub(crate) fn tell_done(is_done: bool, out: &mut Told) {
    if is_done {
        add_word(out, b"ok");
    } else {
        add_word(out, b"failed");
    }
}

/// Bytes, in brackets.
pub(crate) fn tell_bytes(bytes: &[u8], out: &mut Told) {
    add_word(out, b"[");
    add(out, bytes);
    add(out, b"]");
}

/// A step that its kind of row doesn't have.
pub(crate) fn tell_unknown(out: &mut Told) {
    add_word(out, b"no such step");
}
