//! What the client is told.
ghost use Rattle.std.specs.Prelude.{◌≡◌};
ghost use Rattle.smap_gate.specs.Texts.{kept};

use arrayvec::ArrayVec;
use fw_types::{append, append_u32};

/// The message stands in the slot of this number.
pub(crate) fn kept(slot: u32) -> ArrayVec<u8, 40>
    ensures { result.items ≡ kept slot }
{
    let mut out = ArrayVec::new();
    append(&mut out, b"250 Message kept in slot ");
    append_u32(&mut out, slot);
    append(&mut out, b"\r\n");
    out
}
