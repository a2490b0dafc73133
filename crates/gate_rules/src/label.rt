ghost use Rattle.std.specs.Prelude.{◌≡◌, IsTrue};
ghost use Rattle.std.specs.List.{list_all};
ghost use Rattle.gate_rules.specs.Label.{is_label, is_label_byte, label_of};

use arrayvec::ArrayVec;
use fw_types::copy_of;
use std::marker::Model;

/// The label of a daemon: 1 to 64 bytes without a space, a tab, a comma or a colon.
#[derive(Drop)]
pub struct Label {
    text: ArrayVec<u8, 64>,
}

impl Model for Label {
    ghost use Rattle.std.specs.Prelude.{ℕ, List, IsTrue};
    ghost use Rattle.gate_rules.specs.Label.{is_label};

    ghost Value = { List ℕ };

    ghost view = { λ label. label.text.items };

    ghost invariant = { λ label. IsTrue (is_label label.text.items) };
}

fn is_label_byte(byte: u8) -> bool
    ensures { result ≡ is_label_byte byte }
{
    !(byte == b' ' || byte == b'\t' || byte == b',' || byte == b':')
}

fn all_label_bytes(text: &[u8]) -> bool
    ensures { result ≡ list_all is_label_byte text.now }
{
    text.iter().all(|byte| is_label_byte(*byte))
}

fn is_label(text: &[u8]) -> bool
    ensures { result ≡ is_label text.now }
{
    !text.is_empty() && text.len() <= 64 && all_label_bytes(text)
}

impl Label {
    /// The label that the text is, or nothing where it is none.
    pub fn read(text: &[u8]) -> Option<Label>
        ensures { result ≡ label_of text.now }
    {
        if !is_label(text) {
            return None;
        }
        Some(Label {
            text: copy_of(text),
        })
    }

    /// Its bytes.
    pub fn text(&self) -> &[u8]
        ensures text { result.now ≡ self.now }
        ensures form { IsTrue (is_label self.now) }
    {
        self.text.as_slice()
    }

    /// An equal label.
    pub fn twin(&self) -> Label
        ensures { result ≡ self.now }
    {
        Label {
            text: copy_of(self.text.as_slice()),
        }
    }
}
