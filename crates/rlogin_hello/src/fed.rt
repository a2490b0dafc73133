//! The bytes that a reader was fed, which only contracts know: they take no room where the program runs.
ghost use Rattle.std.specs.Prelude.{◌≡◌, [], ◌∷◌, ◌++◌};

use std::marker::Model;
use std::snapshot::Snapshot;

/// A byte after those before it; without those, no byte.
#[derive(Drop)]
pub(crate) struct Fed {
    before: Option<Snapshot<Fed>>,
    byte: u8,
}

impl Model for Fed {
    ghost use Rattle.std.specs.Prelude.{ℕ, List, length};
    ghost use Rattle.std.proofs.Common.{arith, length-append};
    ghost use Rattle.rlogin_hello.specs.Fed.{fed_then};

    ghost Value = { List ℕ };

    ghost view = { λ fed. fed_then fed.before fed.byte };

    ghost size = { length };

    ghost size_decreases = { λ a h. Prim.grind (arith, length-append) };
}

/// No byte.
pub(crate) fn nothing() -> Snapshot<Fed>
    ensures { result.value ≡ [] }
{
    Snapshot::of(&Fed {
        before: None,
        byte: 0,
    })
}

/// One byte more.
pub(crate) fn and(before: Snapshot<Fed>, byte: u8) -> Snapshot<Fed>
    ensures { result.value ≡ before.value ++ byte ∷ [] }
{
    Snapshot::of(&Fed {
        before: Some(before),
        byte,
    })
}
