ghost use Rattle.std.specs.Prelude.{◌≡◌, ◌≤◌, length, IsTrue};
ghost use Rattle.std.specs.Char.{is_ascii_alphabetic};
ghost use Rattle.std.specs.List.{list_all};
ghost use Rattle.std.specs.Str.{str_to_ascii_uppercase};
ghost use Rattle.fw_types.specs.Verb.{is_verb, verb_of};

use crate::bytes::copy_of;
use arrayvec::ArrayVec;
use std::marker::Model;

/// A verb of the File Transfer Protocol (RFC 959, section 4.1): 1 to 16 letters, in upper case.
#[derive(Drop)]
pub struct Verb {
    text: ArrayVec<u8, 16>,
}

impl Model for Verb {
    ghost use Rattle.std.specs.Prelude.{ℕ, List, ◌≡◌, IsTrue};
    ghost use Rattle.std.specs.Str.{str_to_ascii_uppercase};
    ghost use Rattle.fw_types.specs.Verb.{is_verb};

    ghost Value = { List ℕ };

    ghost view = { λ verb. verb.text.items };

    ghost invariant = { λ verb. IsTrue (is_verb verb.text.items) ×
        (str_to_ascii_uppercase verb.text.items ≡ verb.text.items) };
}

fn all_letters(text: &[u8]) -> bool
    ensures { result ≡ list_all is_ascii_alphabetic text.now }
{
    text.iter().all(|byte| byte.is_ascii_alphabetic())
}

fn is_verb(text: &[u8]) -> bool
    ensures { result ≡ is_verb text.now }
{
    !text.is_empty() && text.len() <= 16 && all_letters(text)
}

fn upper_copy_of(bytes: &[u8]) -> ArrayVec<u8, 16>
    requires { length bytes.now ≤ 16 }
    ensures { result.items ≡ str_to_ascii_uppercase bytes.now }
{
    let mut out = ArrayVec::new();
    for byte in bytes {
        out.push(byte.to_ascii_uppercase());
    }
    out
}

impl Verb {
    /// The verb that the text is, with its letters in upper case, or nothing where it is none.
    pub fn read(text: &[u8]) -> Option<Verb>
        ensures { result ≡ verb_of text.now }
    {
        if !is_verb(text) {
            return None;
        }
        Some(Verb {
            text: upper_copy_of(text),
        })
    }

    /// Its bytes.
    pub fn text(&self) -> &[u8]
        ensures text { result.now ≡ self.now }
        ensures form { IsTrue (is_verb self.now) }
        ensures upper { str_to_ascii_uppercase self.now ≡ self.now }
    {
        self.text.as_slice()
    }

    /// An equal verb.
    pub fn twin(&self) -> Verb
        ensures { result ≡ self.now }
    {
        Verb {
            text: copy_of(self.text.as_slice()),
        }
    }
}

/// The verb `A`, with which lists fill the places that they don't use.
impl Default for Verb {
    ghost use Rattle.std.specs.Prelude.{◌≡◌, codes};

    ghost is_default = { λ verb. verb ≡ codes "A" };

    fn default() -> Verb {
        Verb {
            text: copy_of(b"A"),
        }
    }
}
