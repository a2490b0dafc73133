//! A message as a slot keeps it, and which of its recipients are done.
ghost use Rattle.std.specs.Prelude.{◌≡◌, ◌<◌, ◌^◌, ◌++◌, length, IfOk, OnOk};
ghost use Rattle.slot_bytes.specs.Layout.{done_of, place_at};

use fw_types::{Message, NoMemory};
use std::alloc::Global;
use std::marker::Model;

/// Places in a list of recipients, from 0 and rising.
#[derive(Drop)]
pub struct Places {
    items: Vec<u32>,
}

impl Model for Places {
    ghost use Rattle.std.specs.Prelude.{ℕ, List};

    ghost Value = { List ℕ };

    ghost view = { λ places. places.items.items };
}

impl Places {
    /// The places in this list.
    pub fn of(items: Vec<u32>) -> Places
        ensures { result ≡ items.items }
    {
        Places { items }
    }

    /// They in a slice.
    pub fn as_slice(&self) -> &[u32]
        ensures { result.now ≡ self.now }
    {
        self.items.as_slice()
    }

    /// They in a list. Takes no memory.
    pub fn into_vec(self) -> Vec<u32>
        ensures { result.items ≡ self }
    {
        self.items
    }
}

/// A message in a slot, by the version of its file, and which of its recipients are done.
#[derive(Drop)]
pub struct Kept {
    pub message: Message,
    /// 1 or 2.
    pub version: u8,
    /// The places of the recipients that are done: in version 1 none.
    pub done: Places,
}

// Adds the place of a mark that isn't 0.
fn add_place(items: &mut Vec<u32>, place: u32, mark: u8) -> Result<(), NoMemory>
    ensures { OnOk result (items.new.items ≡ items.old.items ++ place_at place mark) }
{
    if mark != 0 {
        items.push(place)?;
    }
    Ok(())
}

/// The places of the marks that aren't 0.
pub fn done_of(alloc: Global, marks: &[u8]) -> Result<Places, NoMemory>
    requires { length marks.now < 2 ^ 32 }
    ensures { IfOk result (λ done. done ≡ done_of marks.now) }
{
    let mut items = Vec::new(alloc);
    let mut place = 0u32;
    for mark in marks {
        add_place(&mut items, place, *mark)?;
        place += 1;
    }
    Ok(Places { items })
}
