//! What a lock holds, and what is done to it.
ghost use Rattle.std.specs.Prelude.{◌≡◌, ℕ, List, length};
ghost use Rattle.turn_lock.specs.Entries.{MayGrow};

/// A value that stands for a list of entries.
pub trait StandsFor: Drop {
    type Entry;

    /// What the entries stand on, and no call changes.
    type Origin;

    ghost entries: { Self → List Self.Entry };

    /// How many entries fit; no call changes it.
    ghost limit: { Self → ℕ };

    ghost origin: { Self → Self.Origin };

    /// How many entries there are.
    fn count(&self) -> u64
        ensures { result ≡ length (entries self.now) };
}

/// A call that makes one entry or none.
pub trait TurnCall<V: StandsFor> {
    type Answer;

    /// What the call answers and leaves: of the list before, the limit, the origin, the answer and the list after.
    ghost does: { Self → List V.Entry → ℕ → V.Origin → Self.Answer → List V.Entry → Type 0 };

    fn apply(self, value: &mut V) -> Self::Answer
        ensures does { does self (V.entries value.old) (V.limit value.old) (V.origin value.old) result (V.entries
            value.new) }
        ensures grows { MayGrow (V.limit value.old) (V.entries value.old) (V.entries value.new) }
        ensures limit { V.limit value.new ≡ V.limit value.old }
        ensures origin { V.origin value.new ≡ V.origin value.old };
}
