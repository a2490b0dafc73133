ghost use Rattle.std.specs.Prelude.{◌≡◌, ◌++◌, codes, false, true, IfOk};
ghost use Rattle.std.specs.Prelude.{string_bytes};
ghost use Rattle.std.specs.Fmt.{decimal};
ghost use Rattle.fw_real.specs.Slots.{path_above, slot_path};

use crate::Place;
use crate::private::{make_private, remove_unused};
use fw_types::{NoMemory, Octets};
use std::alloc::{AllocError, Global};
use std::fs::{self, DirBuilder, File, OpenOptions};
use std::io::{self, ErrorKind};
use std::os::unix::fs::{DirBuilderExt, MetadataExt};
use std::str;

/// The file of a slot, `slotS` in the folder of the spool, where S is the slot's number in decimal.
///
/// It is locked as long as it is open, so one process has a slot at a time: a file that another one has open is a
/// failure.
#[derive(Drop)]
pub struct SlotFile {
    system: HostRuntime,
    folder: Octets,
    number: u32,
    is_made: bool,
}

// The path of a slot's file.
fn path_of(alloc: Global, folder: &str, number: u32) -> Result<String, AllocError>
    ensures { IfOk result (λ path. string_bytes path ≡ slot_path folder.now number) }
{
    let mut path = String::new(alloc);
    path.push_str(folder)?;
    path.push_str("/slot")?;
    let digits = number.to_string(alloc)?;
    path.push_str(&digits)?;
    Ok(path)
}

// The path of the folder above, which needn't be named in the folder's own.
fn above(alloc: Global, folder: &str) -> Result<String, AllocError>
    ensures { IfOk result (λ path. string_bytes path ≡ path_above folder.now) }
{
    let mut path = String::new(alloc);
    path.push_str(folder)?;
    path.push_str("/..")?;
    Ok(path)
}

// The answer, or none where the file isn't there.
fn if_there<F>(answer: io::Result<F>) -> io::Result<Option<F>> {
    match answer {
        Ok(file) => Ok(Some(file)),
        Err(fault) if fault.kind() == ErrorKind::NotFound => Ok(None),
        Err(fault) => Err(fault),
    }
}

// The file, if it is a plain one that still has a name.
fn if_named(file: File) -> io::Result<File> {
    let found = file.metadata()?;
    if found.is_file() && found.nlink() > 0 {
        Ok(file)
    } else {
        Err(io::Error::from(ErrorKind::InvalidInput))
    }
}

// Opens a file that is there, for this process alone. One that was removed before it was locked is none.
fn open_locked(system: &HostRuntime, path: &str) -> io::Result<File> {
    let file = OpenOptions::new()
        .read(true)
        .write(true)
        .open(system, path)?;
    match file.try_lock() {
        Ok(()) => if_named(file),
        Err(refusal) => Err(io::Error::from(refusal)),
    }
}

// What was made, where it may have been there before.
fn or_there(answer: io::Result<()>) -> io::Result<()> {
    match answer {
        Err(fault) if fault.kind() == ErrorKind::AlreadyExists => Ok(()),
        answer => answer,
    }
}

// Sees to it that a crash leaves what stands in this folder.
fn sync_folder(system: &HostRuntime, folder: &str) -> io::Result<()> {
    fs::open(system, folder)?.sync_all()
}

// Makes the folder where it is missing, for its owner alone.
fn make_folder(system: &HostRuntime, folder: &str) -> io::Result<()> {
    or_there(DirBuilder::new().mode(0o700).create(system, folder))?;
    sync_folder(system, &above(system.alloc(), folder)?)
}

// Makes the folder and the file where they are missing, for their owner alone, and sees to it that a crash leaves them
// in their folders. A new file that can't be kept so is removed.
fn make(system: &HostRuntime, folder: &str, path: &str) -> io::Result<()> {
    make_folder(system, folder)?;
    let made = make_private(system, path)?;
    match sync_folder(system, folder) {
        Err(fault) if made.is_some() => {
            if let Ok(file) = OpenOptions::new().write(true).open(system, path) {
                remove_unused(system, path, &file);
            }
            Err(fault)
        }
        answer => answer,
    }
}

impl SlotFile {
    /// The file of this slot. Where it is missing it isn't made.
    pub fn new(system: HostRuntime, folder: &[u8], number: u32) -> Result<SlotFile, NoMemory>
        ensures folder { IfOk result (λ slot. slot.folder ≡ folder.now) }
        ensures number { IfOk result (λ slot. slot.number ≡ number) }
        ensures made { IfOk result (λ slot. slot.is_made ≡ false) }
    {
        let folder = Octets::copy(system.alloc(), folder)?;
        Ok(SlotFile {
            system,
            folder,
            number,
            is_made: false,
        })
    }

    /// The same, and where the folder or the file is missing it is made when the file is opened, for its owner alone.
    pub fn made(system: HostRuntime, folder: &[u8], number: u32) -> Result<SlotFile, NoMemory>
        ensures folder { IfOk result (λ slot. slot.folder ≡ folder.now) }
        ensures number { IfOk result (λ slot. slot.number ≡ number) }
        ensures made { IfOk result (λ slot. slot.is_made ≡ true) }
    {
        let slot = SlotFile::new(system, folder, number)?;
        Ok(SlotFile {
            system: slot.system,
            folder: slot.folder,
            number: slot.number,
            is_made: true,
        })
    }
}

impl Place<File> for SlotFile {
    fn open(&self) -> io::Result<Option<File>> {
        let Ok(folder) = str::from_utf8(self.folder.bytes()) else {
            return Err(io::Error::from(ErrorKind::InvalidInput));
        };
        let path = path_of(self.system.alloc(), folder, self.number)?;
        if self.is_made {
            make(&self.system, folder, &path)?;
        }
        if_there(open_locked(&self.system, &path))
    }
}
