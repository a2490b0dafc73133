ghost use Rattle.std.specs.Prelude.{◌≡◌, ◌≤◌, length, IsTrue};
ghost use Rattle.fw_types.specs.Bytes.{is_name_byte};
ghost use Rattle.fw_types.specs.Name.{is_before, is_name, name_of};
ghost use Rattle.std.specs.List.{list_all};

use crate::bytes::copy_of;
use arrayvec::ArrayVec;
use std::marker::Model;

/// The name of a user or of a group: 1 to 32 letters, digits, `.`, `-` and `_`, but not `-` alone. Case is kept.
#[derive(Drop)]
pub struct Name {
    text: ArrayVec<u8, 32>,
}

impl Model for Name {
    ghost use Rattle.std.specs.Prelude.{ℕ, List, IsTrue};
    ghost use Rattle.fw_types.specs.Name.{is_name};

    ghost Value = { List ℕ };

    ghost view = { λ name. name.text.items };

    ghost invariant = { λ name. IsTrue (is_name name.text.items) };
}

/// Whether the byte may stand in a name: a letter, a digit, `.`, `-` or `_`.
pub fn is_name_byte(byte: u8) -> bool
    ensures { result ≡ is_name_byte byte }
{
    byte.is_ascii_alphanumeric() || byte == b'.' || byte == b'-' || byte == b'_'
}

pub(crate) fn all_name_bytes(text: &[u8]) -> bool
    ensures { result ≡ list_all is_name_byte text.now }
{
    text.iter().all(|byte| is_name_byte(*byte))
}

fn is_name(text: &[u8]) -> bool
    ensures { result ≡ is_name text.now }
{
    !text.is_empty() && text.len() <= 32 && all_name_bytes(text) && text != b"-".as_slice()
}

impl Name {
    /// The name that the text is, or nothing where it is none.
    pub fn read(text: &[u8]) -> Option<Name>
        ensures { result ≡ name_of text.now }
    {
        if !is_name(text) {
            return None;
        }
        Some(Name {
            text: copy_of(text),
        })
    }

    /// Its bytes.
    pub fn text(&self) -> &[u8]
        ensures text { result.now ≡ self.now }
        ensures form { IsTrue (is_name self.now) }
    {
        self.text.as_slice()
    }

    /// Whether it comes before another name: at the first place where they differ it has the lesser byte, or it ends
    /// there.
    pub fn is_before(&self, other: &Name) -> bool
        ensures { result ≡ is_before self.now other.now }
    {
        self.text().cmp(other.text()).is_lt()
    }

    /// An equal name.
    pub fn twin(&self) -> Name
        ensures { result ≡ self.now }
    {
        Name {
            text: copy_of(self.text.as_slice()),
        }
    }
}
