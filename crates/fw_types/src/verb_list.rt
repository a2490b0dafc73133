ghost use Rattle.std.specs.Prelude.{◌≡◌, ◌<◌, ◌≤◌, [], ◌∷◌, ◌++◌, length};

use crate::Verb;
use arrayvec::ArrayVec;
use std::marker::Model;

/// A list of at most 32 verbs.
#[derive(Drop)]
pub struct VerbList {
    verbs: ArrayVec<Verb, 32>,
}

impl Model for VerbList {
    ghost use Rattle.std.specs.Prelude.{ℕ, List};

    ghost Value = { List (List ℕ) };

    ghost view = { λ list. list.verbs.items };
}

impl VerbList {
    /// An empty list.
    pub fn new() -> VerbList
        ensures { result ≡ [] }
    {
        VerbList {
            verbs: ArrayVec::new(),
        }
    }

    /// Adds a verb at the end of a list that has room for it.
    pub fn push(&mut self, one: Verb)
        requires { length self.old < 32 }
        ensures { self.new ≡ self.old ++ one ∷ [] }
    {
        self.verbs.push(one);
    }

    /// Its verbs, in order.
    pub fn verbs(&self) -> &[Verb]
        ensures verbs { result.now ≡ self.now }
        ensures few { length self.now ≤ 32 }
    {
        self.verbs.as_slice()
    }
}
