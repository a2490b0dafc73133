ghost use Rattle.std.specs.Prelude.{◌≡◌, IsTrue};
ghost use Rattle.std.specs.List.{list_all};
ghost use Rattle.std.specs.Char.{is_ascii_alphanumeric};
ghost use Rattle.auth_records.specs.Texts.{is_seed_byte, is_seed, is_seed_text, seed_of};

use arrayvec::ArrayVec;
use fw_types::{copy_of, lower_copy_of};
use std::marker::Model;

/// The seed of one-time passwords: 1 to 16 lower-case letters and digits (RFC 2289, 6.0).
#[derive(Drop)]
pub struct Seed {
    text: ArrayVec<u8, 16>,
}

impl Model for Seed {
    ghost use Rattle.std.specs.Prelude.{ℕ, List, IsTrue};
    ghost use Rattle.auth_records.specs.Texts.{is_seed};

    ghost Value = { List ℕ };

    ghost view = { λ seed. seed.text.items };

    ghost invariant = { λ seed. IsTrue (is_seed seed.text.items) };
}

/// Whether the byte may stand in a seed: a lower-case letter or a digit.
pub(crate) fn is_seed_byte(byte: u8) -> bool
    ensures { result ≡ is_seed_byte byte }
{
    byte.is_ascii_lowercase() || byte.is_ascii_digit()
}

fn all_alphanumeric(text: &[u8]) -> bool
    ensures { result ≡ list_all is_ascii_alphanumeric text.now }
{
    text.iter().all(|byte| byte.is_ascii_alphanumeric())
}

fn is_seed_text(text: &[u8]) -> bool
    ensures { result ≡ is_seed_text text.now }
{
    !text.is_empty() && text.len() <= 16 && all_alphanumeric(text)
}

impl Seed {
    /// The seed that the text is, its letters put to lower case, or nothing where the text isn't 1 to 16 letters and
    /// digits.
    pub fn read(text: &[u8]) -> Option<Seed>
        ensures { result ≡ seed_of text.now }
    {
        if !is_seed_text(text) {
            return None;
        }
        Some(Seed {
            text: lower_copy_of(text),
        })
    }

    /// The seed that a text in lower case is.
    pub(crate) fn of(text: &[u8]) -> Seed
        requires { IsTrue (is_seed text.now) }
        ensures { result ≡ text.now }
    {
        Seed {
            text: copy_of(text),
        }
    }

    /// Its bytes.
    pub fn text(&self) -> &[u8]
        ensures text { result.now ≡ self.now }
        ensures form { IsTrue (is_seed self.now) }
    {
        self.text.as_slice()
    }

    /// An equal seed.
    pub fn twin(&self) -> Seed
        ensures { result ≡ self.now }
    {
        Seed {
            text: copy_of(self.text.as_slice()),
        }
    }
}
