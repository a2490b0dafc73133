//! What a row asks for.

use fw_memory::{Calls, MemDisk};
use fw_types::{NoMemory, Octets};
use lines_of_rows::from_hex;
use smapd_queue::Handed;
use std::alloc::Global;
use std::str;

/// Which calls of the devices fail.
#[derive(Clone, Copy)]
pub(crate) struct Fails {
    /// Of the disk of the slot with this number, those from this one on.
    pub disk: Option<(u64, u64)>,
    /// Of the log, those from this one on.
    pub log: Option<u64>,
}

impl Fails {
    /// None.
    pub(crate) fn none() -> Fails {
        Fails {
            disk: None,
            log: None,
        }
    }

    // Those of the disk of this slot.
    fn of_slot(&self, slot: u64) -> Calls {
        match self.disk {
            Some((number, first)) if number == slot => Calls::onward(first),
            _ => Calls::none(),
        }
    }

    /// Those of the log.
    pub(crate) fn of_log(&self) -> Calls {
        match self.log {
            Some(first) => Calls::onward(first),
            None => Calls::none(),
        }
    }
}

// The bytes of a slot: `f` a free one, `w` with a message from a@b to c@d, `v` with another, `a` with the first set aside, or
// digits.
fn slot_of(alloc: Global, word: &[u8]) -> Result<Vec<u8>, NoMemory> {
    let digits: &[u8] = match word {
        b"f" => b"0000",
        b"w" => b"01004657533100000000000000050001000361406200036340646162630d0a",
        b"v" => b"010046575331000000000000000500010003614062000363406478797a0d0a",
        b"a" => b"01014657533100000000000000050001000361406200036340646162630d0a",
        digits => digits,
    };
    from_hex(alloc, str::from_utf8(digits).unwrap_or(""))
}

/// The disks of slots.
pub(crate) fn disks_of(
    alloc: Global,
    words: &[u8],
    fails: Fails,
) -> Result<Vec<MemDisk>, NoMemory> {
    let mut disks = Vec::new(alloc);
    let mut number = 0u64;
    for word in words.split(|byte| *byte == b',') {
        let bytes = Octets::of(slot_of(alloc, word)?);
        disks.push(MemDisk::new(alloc, bytes, fails.of_slot(number)))?;
        number = number.saturating_add(1);
    }
    Ok(disks)
}

/// The answers of a mailer: `a` accepted, `r` refused, `f` failed, `m` no memory; `-` is none, behind which it accepts.
pub(crate) fn answers_of(alloc: Global, word: &[u8]) -> Result<Vec<Handed>, NoMemory> {
    let mut answers = Vec::new(alloc);
    for letter in word {
        match letter {
            b'a' => answers.push(Handed::Accepted)?,
            b'r' => answers.push(Handed::Refused)?,
            b'f' => answers.push(Handed::Failed)?,
            b'm' => answers.push(Handed::NoMemory)?,
            _ => (),
        }
    }
    Ok(answers)
}
