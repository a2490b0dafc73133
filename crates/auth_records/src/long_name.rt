ghost use Rattle.std.specs.Prelude.{◌≡◌, IsTrue};
ghost use Rattle.std.specs.List.{list_all};
ghost use Rattle.auth_records.specs.Texts.{is_printable, is_long_name, long_name_of};

use arrayvec::ArrayVec;
use fw_types::copy_of;
use std::marker::Model;

/// The long name of a user: 0 to 64 bytes, each from the space to `~` (32 to 126).
#[derive(Drop)]
pub struct LongName {
    text: ArrayVec<u8, 64>,
}

impl Model for LongName {
    ghost use Rattle.std.specs.Prelude.{ℕ, List, IsTrue};
    ghost use Rattle.auth_records.specs.Texts.{is_long_name};

    ghost Value = { List ℕ };

    ghost view = { λ long. long.text.items };

    ghost invariant = { λ long. IsTrue (is_long_name long.text.items) };
}

/// Whether the byte may stand in a long name.
pub(crate) fn is_printable(byte: u8) -> bool
    ensures { result ≡ is_printable byte }
{
    (32..=126).contains(&byte)
}

fn all_printable(text: &[u8]) -> bool
    ensures { result ≡ list_all is_printable text.now }
{
    text.iter().all(|byte| is_printable(*byte))
}

fn is_long_name(text: &[u8]) -> bool
    ensures { result ≡ is_long_name text.now }
{
    text.len() <= 64 && all_printable(text)
}

impl LongName {
    /// The long name that the text is, or nothing where it is none.
    pub fn read(text: &[u8]) -> Option<LongName>
        ensures { result ≡ long_name_of text.now }
    {
        if !is_long_name(text) {
            return None;
        }
        Some(LongName {
            text: copy_of(text),
        })
    }

    /// The long name that a long name's text is.
    pub(crate) fn of(text: &[u8]) -> LongName
        requires { IsTrue (is_long_name text.now) }
        ensures { result ≡ text.now }
    {
        LongName {
            text: copy_of(text),
        }
    }

    /// Its bytes.
    pub fn text(&self) -> &[u8]
        ensures text { result.now ≡ self.now }
        ensures form { IsTrue (is_long_name self.now) }
    {
        self.text.as_slice()
    }

    /// An equal long name.
    pub fn twin(&self) -> LongName
        ensures { result ≡ self.now }
    {
        LongName {
            text: copy_of(self.text.as_slice()),
        }
    }
}
