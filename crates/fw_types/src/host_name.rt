ghost use Rattle.std.specs.Prelude.{◌≡◌, IsTrue};
ghost use Rattle.std.specs.List.{list_all};
ghost use Rattle.std.specs.Str.{str_to_ascii_lowercase};
ghost use Rattle.fw_types.specs.HostName.{host_name_of, is_address_byte, is_host_name};

use crate::bytes::{copy_of, lower_copy_of};
use crate::name::all_name_bytes;
use arrayvec::ArrayVec;
use std::marker::Model;

/// The name of a host, in lower case: 1 to 255 letters, digits, `.`, `-` and `_`, but not digits and periods alone.
#[derive(Drop)]
pub struct HostName {
    text: ArrayVec<u8, 255>,
}

impl Model for HostName {
    ghost use Rattle.std.specs.Prelude.{ℕ, List, ◌≡◌, IsTrue};
    ghost use Rattle.std.specs.Str.{str_to_ascii_lowercase};
    ghost use Rattle.fw_types.specs.HostName.{is_host_name};

    ghost Value = { List ℕ };

    ghost view = { λ name. name.text.items };

    ghost invariant = { λ name. IsTrue (is_host_name name.text.items) ×
        (str_to_ascii_lowercase name.text.items ≡ name.text.items) };
}

fn all_address_bytes(text: &[u8]) -> bool
    ensures { result ≡ list_all is_address_byte text.now }
{
    text.iter()
        .all(|byte| byte.is_ascii_digit() || *byte == b'.')
}

fn is_host_name(text: &[u8]) -> bool
    ensures { result ≡ is_host_name text.now }
{
    !text.is_empty() && text.len() <= 255 && all_name_bytes(text) && !all_address_bytes(text)
}

impl HostName {
    /// The name that the text is, with its letters in lower case, or nothing where it is none.
    pub fn read(text: &[u8]) -> Option<HostName>
        ensures { result ≡ host_name_of text.now }
    {
        if !is_host_name(text) {
            return None;
        }
        Some(HostName {
            text: lower_copy_of(text),
        })
    }

    /// Its bytes.
    pub fn text(&self) -> &[u8]
        ensures text { result.now ≡ self.now }
        ensures form { IsTrue (is_host_name self.now) }
        ensures lower { str_to_ascii_lowercase self.now ≡ self.now }
    {
        self.text.as_slice()
    }

    /// An equal name.
    pub fn twin(&self) -> HostName
        ensures { result ≡ self.now }
    {
        HostName {
            text: copy_of(self.text.as_slice()),
        }
    }
}
