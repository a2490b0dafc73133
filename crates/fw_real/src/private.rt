//! Files that only their owner may read and write.
ghost use Rattle.std.specs.Prelude.{◌≡◌, true, IfOk, IfSome};
ghost use Rattle.std.specs.Fs.{metadata_mode};
ghost use Rattle.fw_real.specs.Private.{is_private};

use std::fs::{self, File, Metadata, OpenOptions};
use std::io::{self, ErrorKind};
use std::os::unix::fs::{MetadataExt, OpenOptionsExt};

// Whether nobody but the owner may do anything with a file of this mode.
fn is_private(mode: u32) -> bool
    ensures { result ≡ is_private mode }
{
    mode % 0o100 == 0
}

// The file, if it is its owner's alone.
fn if_private(made: Metadata) -> io::Result<Metadata>
    ensures { IfOk result (λ made. is_private (metadata_mode made) ≡ true) }
{
    if is_private(made.mode()) {
        Ok(made)
    } else {
        Err(io::Error::from(ErrorKind::PermissionDenied))
    }
}

// Syncs a new file, and tells of it, if it is its owner's alone.
fn keep_private(file: &File) -> io::Result<Metadata>
    ensures { IfOk result (λ made. is_private (metadata_mode made) ≡ true) }
{
    file.sync_all()?;
    if_private(file.metadata()?)
}

/// Removes a new file that is of no use, unless another process has it locked, or has written to it.
pub(crate) fn remove_unused(system: &HostRuntime, path: &str, file: &File) {
    if file.try_lock().is_err() {
        return;
    }
    if let Ok(found) = file.metadata() {
        if found.len() == 0 {
            let _ = fs::remove_file(system, path);
        }
    }
}

/// Makes an empty file that only its owner may read and write, and tells what was made; or nothing, where a file of
/// this path is there. One that others may use all the same, on a file system without modes, is a failure, and so is
/// one that can't be synced: it is removed.
pub(crate) fn make_private(system: &HostRuntime, path: &str) -> io::Result<Option<Metadata>>
    ensures { IfOk result (λ made. IfSome made (λ file. is_private (metadata_mode file) ≡ true)) }
{
    let made = OpenOptions::new()
        .write(true)
        .create_new(true)
        .mode(0o600)
        .open(system, path);
    match made {
        Ok(file) => match keep_private(&file) {
            Ok(made) => Ok(Some(made)),
            Err(fault) => {
                remove_unused(system, path, &file);
                Err(fault)
            }
        },
        Err(fault) if fault.kind() == ErrorKind::AlreadyExists => Ok(None),
        Err(fault) => Err(fault),
    }
}
