//! Readers that are fed byte by byte.

use lines_of_rows::{Told, add, add_word};

/// A reader, and what is told of it.
pub(crate) trait Feeding {
    /// A reader before a text.
    fn begin() -> Self;

    /// Feeds a byte, and adds what is told of it.
    fn feed(&mut self, byte: u8, out: &mut Told);

    /// Looks at the reader behind a piece, and adds what isn't as it has to be there.
    fn look(&self, out: &mut Told);
}

// Feeds a text, and looks at the reader behind each piece of so many bytes.
fn tell_pieces<R: Feeding + Drop>(text: &[u8], most: usize) -> Told {
    let mut out = Told::new();
    let mut reader = R::begin();
    reader.look(&mut out);
    for piece in text.chunks(most.max(1)) {
        for byte in piece {
            reader.feed(*byte, &mut out);
        }
        reader.look(&mut out);
    }
    out
}

/// What is told of the text as a whole, and also what is told of it byte by byte, and in pieces of 7, where that
/// differs.
pub(crate) fn tell_fed<R: Feeding + Drop>(text: &[u8], out: &mut Told) {
    let whole = tell_pieces::<R>(text, text.len());
    add(out, whole.as_slice());
    for most in [1, 7] {
        let told = tell_pieces::<R>(text, most);
        if told.as_slice() != whole.as_slice() {
            add_word(out, b"in pieces: ");
            add(out, told.as_slice());
        }
    }
}
