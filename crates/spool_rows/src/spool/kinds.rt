//! The kinds of row.

use crate::spool::disks::{tell_crash, tell_disk};
use crate::spool::formats::{tell_crashes, tell_format};
use crate::spool::images::{tell_fill_crashes, tell_mark_crashes};
use crate::spool::letters::{tell_abandon, tell_fill};
use crate::spool::marks::{tell_mark, tell_open};
use crate::spool::racks::tell_rack;
use crate::spool::refills::{tell_refill, tell_refill_crashes, tell_torn};
use crate::spool::slots::{base_of, tell_base, tell_head, tell_length, tell_slot};
use fw_types::NoMemory;
use lines_of_rows::{Rows, Told, add};
use std::alloc::Global;

/// Knows the kinds of row.
#[derive(Drop)]
pub(crate) struct Kinds {
    // The slot of the last line `base`.
    base: Vec<u8>,
}

impl Kinds {
    pub(crate) fn new(alloc: Global) -> Kinds {
        Kinds {
            base: Vec::new(alloc),
        }
    }

    fn set_base(&mut self, alloc: Global, asked: &[u8], out: &mut Told) -> Result<(), NoMemory> {
        self.base = base_of(alloc, asked, out)?;
        Ok(())
    }
}

impl Rows for Kinds {
    fn tell(
        &mut self,
        alloc: Global,
        kind: &str,
        asked: &[u8],
        out: &mut Told,
    ) -> Result<(), NoMemory> {
        match kind {
            "slot" => tell_slot(alloc, asked, out),
            "head" => tell_head(alloc, out),
            "length" => {
                tell_length(asked, out);
                Ok(())
            }
            "base" => self.set_base(alloc, asked, out),
            "put" | "front" | "behind" => tell_base(alloc, &self.base, kind, asked, out),
            _ => tell_on_disk(alloc, kind, asked, out),
        }
    }
}

// Tells a row about a disk.
fn tell_on_disk(alloc: Global, kind: &str, asked: &[u8], out: &mut Told) -> Result<(), NoMemory> {
    match kind {
        "disk" => tell_disk(alloc, asked, out),
        "crash" => tell_crash(alloc, asked, out),
        "format" => tell_format(alloc, asked, out),
        "format-crashes" => tell_crashes(alloc, asked, out),
        "rack" => tell_rack(alloc, asked, out),
        _ => tell_in_slot(alloc, kind, asked, out),
    }
}

// Tells a row about a message in a slot.
fn tell_in_slot(alloc: Global, kind: &str, asked: &[u8], out: &mut Told) -> Result<(), NoMemory> {
    match kind {
        "fill" => tell_fill(alloc, asked, out),
        "abandon" => tell_abandon(alloc, asked, out),
        "refill" => tell_refill(alloc, asked, out),
        "open" => tell_open(alloc, asked, out),
        "set-aside" | "release" => tell_mark(alloc, kind, asked, out),
        _ => tell_crashed(alloc, kind, asked, out),
    }
}

// Tells a row about the images of such a slot.
fn tell_crashed(alloc: Global, kind: &str, asked: &[u8], out: &mut Told) -> Result<(), NoMemory> {
    match kind {
        "fill-crashes" => tell_fill_crashes(alloc, asked, out),
        "refill-crashes" => tell_refill_crashes(alloc, asked, out),
        "torn" => tell_torn(alloc, asked, out),
        "set-aside-crashes" => tell_mark_crashes(alloc, "set-aside", asked, out),
        "release-crashes" => tell_mark_crashes(alloc, "release", asked, out),
        _ => {
            add(out, b"no such kind");
            Ok(())
        }
    }
}
