//! The disks of the slots, and who mail is handed to.
ghost use Rattle.std.specs.Prelude.{◌≤◌, length, IfOk};

use crate::process::SlotDisk;
use bastion::{Outcome, Places};
use fw_real::{FileDisk, SlotFile};
use fw_types::NoMemory;
use real_links::MailerProgram;

/// What a command does with the slots.
#[derive(Clone, Copy)]
pub enum Slots {
    /// It has none.
    Unused,
    /// They are opened; one that is missing has no byte.
    Opened,
    /// They are made.
    Made,
}

/// The most slots of a spool.
const MOST_SLOTS: usize = 64;

/// How many seconds the mailer's program has for each message.
const HAND_SECONDS: u32 = 300;

// The disks of the slots, none if they aren't used. A file that is missing is made where they are made.
fn all_disks(rt: HostRuntime, places: &Places, slots: Slots) -> Result<Vec<SlotDisk>, NoMemory> {
    let mut disks = Vec::new(rt.alloc());
    let count = match slots {
        Slots::Unused => 0,
        Slots::Opened | Slots::Made => places.slots,
    };
    for number in 0..count {
        let file = match slots {
            Slots::Made => SlotFile::made(rt, places.spool, number)?,
            Slots::Unused | Slots::Opened => SlotFile::new(rt, places.spool, number)?,
        };
        disks.push(FileDisk::new(file))?;
    }
    Ok(disks)
}

/// The disks of the slots that these options name; a command takes so many, and the words name no more.
pub fn disks_of(rt: HostRuntime, places: &Places, slots: Slots) -> Result<Vec<SlotDisk>, Outcome>
    ensures { IfOk result (λ disks. length disks.items ≤ 64) }
{
    let disks = all_disks(rt, places, slots)?;
    if disks.len() > MOST_SLOTS {
        return Err(Outcome::Usage);
    }
    Ok(disks)
}

/// The program that mail is handed to.
pub fn mailer_of(rt: HostRuntime, places: &Places) -> Result<MailerProgram, NoMemory> {
    MailerProgram::new(rt, places.mailer, places.spool, HAND_SECONDS)
}
