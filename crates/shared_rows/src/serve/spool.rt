//! The spool of the scenes, and the rest between two rounds.

use acceptors::Pacer;
use fw_mail::Mailer;
use fw_memory::{Calls, MemDisk};
use fw_types::{Message, NoMemory, Octets};
use lines_of_rows::{Told, add, add_word};
use slot_bytes::{Slot, SlotFault, read_slot};
use spool_rack::Rack;
use std::alloc::Global;
use std::sync::Wait;
use std::sync::atomic::{AtomicU64, Ordering};
use std::thread::Parker;
use std::time::Duration;

// How often it is looked whether enough was told, with a rest between.
const LOOKS: u64 = 20_000;

/// Rests until so many marks were told, and then as long as workers may need to end.
#[derive(Drop)]
pub(crate) struct Resting<'a, H> {
    pub(crate) rt: &'a H,
    pub(crate) parker: Parker,
    pub(crate) told: &'a AtomicU64,
    pub(crate) marks: u64,
}

impl<H: Wait> Pacer for Resting<'_, H> {
    fn rest(&mut self) {
        for _look in 0..LOOKS {
            if self.told.load(Ordering::SeqCst) >= self.marks {
                break;
            }
            self.parker.park_timeout(self.rt, Duration::from_millis(1));
        }
        self.parker
            .park_timeout(self.rt, Duration::from_millis(100));
    }

    fn rest_long(&mut self) {
        self.rest();
    }
}

// So many disks, each with a free slot.
fn disks(alloc: Global, slots: u32) -> Result<Vec<MemDisk>, NoMemory> {
    let mut disks = Vec::new(alloc);
    for _slot in 0..slots {
        let bytes = Octets::copy(alloc, b"\0\0")?;
        disks.push(MemDisk::new(alloc, bytes, Calls::none()))?;
    }
    Ok(disks)
}

/// A rack of so many free slots, at most 64.
pub(crate) fn rack(alloc: Global, slots: u32) -> Result<Rack<MemDisk>, NoMemory> {
    let disks = disks(alloc, slots)?;
    if disks.len() > 64 {
        return Err(NoMemory);
    }
    match Rack::open(alloc, disks) {
        Ok(rack) => Ok(rack),
        Err(_) => Err(NoMemory),
    }
}

// Adds a message: its sender, its recipients after `>` and `,`, and its body after `:`, with `^` for each CR LF.
fn add_message(out: &mut Told, message: &Message) {
    add_word(out, message.from.bytes());
    let mut mark: &[u8] = b">";
    for rcpt in message.rcpts.as_slice() {
        add(out, mark);
        add(out, rcpt.bytes());
        mark = b",";
    }
    add(out, b":");
    for byte in message.body.bytes() {
        match byte {
            b'\r' => (),
            b'\n' => add(out, b"^"),
            other => add(out, &[*other]),
        }
    }
}

/// The messages that the first mailer took, in order.
pub(crate) fn taken_by(mailers: &[Box<dyn Mailer>]) -> Told {
    let mut taken = Told::new();
    if let Some(mailer) = mailers.first() {
        for message in mailer.shown() {
            add_message(&mut taken, message);
        }
    }
    taken
}

fn add_slot(out: &mut Told, slot: &Slot) {
    match slot {
        Slot::Whole(kept) => add_message(out, &kept.message),
        Slot::Free | Slot::Aside(_) => add_word(out, b"none"),
    }
}

// Adds the message that still stands after a closed gate.
fn add_behind(alloc: Global, out: &mut Told, rest: &[u8]) -> Result<(), NoMemory> {
    let mut bytes = Vec::new(alloc);
    bytes.push(1)?;
    bytes.extend_from_slice(rest)?;
    match read_slot(alloc, &bytes) {
        Ok(slot) => {
            add_slot(out, &slot);
            drop(slot);
            Ok(())
        }
        Err(SlotFault::Bad { at: _ }) => {
            add_word(out, b"none");
            Ok(())
        }
        Err(SlotFault::NoMemory) => Err(NoMemory),
    }
}

/// Adds for each free slot the message that it had last.
pub(crate) fn add_freed(alloc: Global, out: &mut Told, disks: &[MemDisk]) -> Result<(), NoMemory> {
    for disk in disks {
        match disk.bytes() {
            [0, rest @ ..] => add_behind(alloc, out, rest)?,
            _ => add_word(out, b"not free"),
        }
    }
    Ok(())
}
