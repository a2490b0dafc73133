//! The laws of acts at a small signature.

ghost use Rattle.std.specs.Prelude.{ℕ, ◌≡◌, ◌+◌};

use fw_acts::laws::{
    Signature, Watcher, one_list, projections_join, rows_keep, runs_go_on, runs_join,
};

/// A counter: an act asks how much to add, and adds what it is answered.
struct Counter;

impl Signature for Counter {
    ghost acts = { record {
      Act = Unit {0};
      Answer = λ act. ℕ;
      World = ℕ;
      Stop = ⊥;
      does = λ act answer old new. new ≡ old + answer;
      stops = λ act stop old new. ⊥;
    } };
}

impl Watcher for Counter {
    type Place = bool;

    ghost acts = { ⟦<Counter as Signature>⟧.acts };

    ghost watch = { record {
      Noted = ℕ;
      note = λ noted act answer. noted + answer;
      may = λ noted act. Unit {0};
      holds = λ noted place. Unit {0};
      over = λ noted. Unit {0};
    } };
}

/// Calls the laws.
pub(crate) fn laws_hold() {
    one_list::<Counter, bool>();
    runs_join::<Counter, bool>();
    runs_go_on::<Counter, bool>();
    projections_join::<Counter, u8>();
    rows_keep::<Counter>();
}
