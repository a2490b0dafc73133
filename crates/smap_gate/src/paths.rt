//! Paths, and lists of them.
ghost use Rattle.std.specs.Prelude.{◌≡◌, ◌++◌, ◌∷◌, [], true, option_map, IfOk};
ghost use Rattle.slot_bytes.specs.Layout.{IsTextFrom};
ghost use Rattle.smap_gate.specs.Paths.{least_of, path_behind};

use fw_types::{Octets, OctetsList};
use smap_lines::{Path, PathFault, read_path};
use std::alloc::Global;

/// The path behind a verb and its keyword, which have to be there.
pub(crate) fn path_behind(path_text: Option<&[u8]>, may_be_empty: bool) -> Result<Path, PathFault>
    ensures is { result ≡ path_behind may_be_empty (option_map (λ text. text.now) path_text.entry) }
    ensures fits { IfOk result (IsTextFrom (least_of may_be_empty) 256) }
{
    match path_text {
        Some(text) => read_path(text, may_be_empty),
        None => Err(PathFault::Syntax),
    }
}

/// The list with a copy of the path behind it, where there was memory, and whether there was.
pub(crate) fn longer(alloc: Global, rcpts: OctetsList, path: &Path) -> (OctetsList, bool)
    ensures { result.1 ≡ true → result.0 ≡ rcpts ++ path.now ∷ [] }
{
    let mut rcpts = rcpts;
    let Ok(one) = Octets::copy(alloc, path.text()) else {
        return (rcpts, false);
    };
    match rcpts.push(one) {
        Ok(()) => (rcpts, true),
        Err(_) => (rcpts, false),
    }
}
