//! What is told of slots' bytes.
ghost use Rattle.std.specs.Prelude.{◌≡◌, ◌∷◌, [], codes, IfOk};

use fw_types::{NoMemory, Octets, OctetsList};
use lines_of_rows::{Told, add, add_hex, add_number, add_word, cut_word, from_hex, number_of};
use slot_bytes::{Kept, Message, Slot, SlotFault, head_bytes, length_bytes, read_slot};
use std::alloc::Global;
use std::str;

fn bytes_of(alloc: Global, digits: &[u8]) -> Result<Vec<u8>, NoMemory> {
    from_hex(alloc, str::from_utf8(digits).unwrap_or(""))
}

pub(crate) fn tell_message(message: &Message, out: &mut Told) {
    add_word(out, b"from [");
    add(out, message.from.bytes());
    add(out, b"] to");
    for rcpt in message.rcpts.as_slice() {
        add_word(out, b"[");
        add(out, rcpt.bytes());
        add(out, b"]");
    }
    add_word(out, b"body");
    add_hex(out, message.body.bytes());
}

// Tells a message, and in version 2 the places of the recipients that are done.
fn tell_kept(kept: &Kept, out: &mut Told) {
    tell_message(&kept.message, out);
    if kept.version != 1 {
        add_word(out, b"version");
        add_number(out, u64::from(kept.version));
        add_word(out, b"done");
        for place in kept.done.as_slice() {
            add_number(out, u64::from(*place));
        }
    }
}

fn tell_read(slot: &Slot, out: &mut Told) {
    match slot {
        Slot::Free => add(out, b"free"),
        Slot::Whole(kept) => {
            add(out, b"full");
            tell_kept(kept, out);
        }
        Slot::Aside(kept) => {
            add(out, b"aside");
            tell_kept(kept, out);
        }
    }
}

fn tell_bytes(alloc: Global, bytes: &[u8], out: &mut Told) -> Result<(), NoMemory> {
    match read_slot(alloc, bytes) {
        Ok(slot) => {
            tell_read(&slot, out);
            drop(slot);
            Ok(())
        }
        Err(SlotFault::Bad { at }) => {
            add(out, b"bad at");
            add_number(out, at as u64);
            Ok(())
        }
        Err(SlotFault::NoMemory) => Err(NoMemory),
    }
}

fn letter_in(slot: &Slot) -> u8 {
    match slot {
        Slot::Free => b'f',
        Slot::Whole(_) => b'w',
        Slot::Aside(_) => b'a',
    }
}

/// A letter for what a slot's bytes are read as: `f` free, `w` whole, `a` aside, `b` bad.
pub(crate) fn letter_of(alloc: Global, bytes: &[u8]) -> Result<u8, NoMemory> {
    match read_slot(alloc, bytes) {
        Ok(slot) => {
            let letter = letter_in(&slot);
            drop(slot);
            Ok(letter)
        }
        Err(SlotFault::Bad { at: _ }) => Ok(b'b'),
        Err(SlotFault::NoMemory) => Err(NoMemory),
    }
}

/// `slot DIGITS => free`, `full MESSAGE`, `aside MESSAGE` or `bad at PLACE`.
pub(crate) fn tell_slot(alloc: Global, asked: &[u8], out: &mut Told) -> Result<(), NoMemory> {
    tell_bytes(alloc, &bytes_of(alloc, asked)?, out)
}

/// `base DIGITS => N bytes`: the slot that further rows change.
pub(crate) fn base_of(alloc: Global, asked: &[u8], out: &mut Told) -> Result<Vec<u8>, NoMemory> {
    let bytes = bytes_of(alloc, asked)?;
    add_number(out, bytes.len() as u64);
    add_word(out, b"bytes");
    Ok(bytes)
}

/// `put PLACE DIGITS`, `front LENGTH` and `behind DIGITS`: the base with bytes put at a place, its front of this
/// length, and the base with bytes behind it, each told as by `slot`.
pub(crate) fn tell_base(
    alloc: Global,
    base: &[u8],
    kind: &str,
    asked: &[u8],
    out: &mut Told,
) -> Result<(), NoMemory> {
    let (first, second) = cut_word(asked);
    let mut bytes = Vec::from_slice(alloc, base)?;
    let place = number_of(first) as usize;
    match kind {
        "front" => bytes.truncate(place),
        "behind" => bytes.extend_from_slice(&bytes_of(alloc, first)?)?,
        _ => {
            for (byte, new) in bytes.iter_mut().skip(place).zip(&bytes_of(alloc, second)?) {
                *byte = *new;
            }
        }
    }
    tell_bytes(alloc, &bytes, out)
}

/// The recipients: one.
pub(crate) fn recipients(alloc: Global) -> Result<OctetsList, NoMemory>
    ensures { IfOk result (λ rcpts. rcpts ≡ codes "c@d" ∷ []) }
{
    let mut rcpts = OctetsList::new(alloc);
    let one = Octets::copy(alloc, b"c@d")?;
    match rcpts.push(one) {
        Ok(()) => Ok(rcpts),
        Err(_) => Err(NoMemory),
    }
}

/// `head => DIGITS`: what is written of a message from `a@b` to `c@d` that is begun, from byte 1 on.
pub(crate) fn tell_head(alloc: Global, out: &mut Told) -> Result<(), NoMemory> {
    let rcpts = recipients(alloc)?;
    let head = head_bytes(alloc, b"a@b", &rcpts);
    drop(rcpts);
    add_hex(out, &head?);
    Ok(())
}

/// `length NUMBER => DIGITS`: a body's length in eight bytes.
pub(crate) fn tell_length(asked: &[u8], out: &mut Told) {
    let len = number_of(asked).min(u64::from(u32::MAX)) as u32;
    add_hex(out, &length_bytes(len));
}
