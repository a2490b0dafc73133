//! The file that holds the body of a message while it is handed over.

use fw_types::NoMemory;
use std::alloc::{AllocError, Global};
use std::fs::{self, File, OpenOptions};
use std::io::{self, Seek, SeekFrom, Write};
use std::os::unix::fs::OpenOptionsExt;
use std::str;

fn path_in(alloc: Global, folder: &str) -> Result<String, AllocError> {
    let mut path = String::new(alloc);
    path.push_str(folder)?;
    path.push_str("/handing")?;
    Ok(path)
}

/// The path of the file that holds a body while it is handed over, in this folder; or nothing where that is no UTF-8.
pub(crate) fn body_path(alloc: Global, folder: &[u8]) -> Result<Option<String>, NoMemory> {
    match str::from_utf8(folder) {
        Ok(folder) => Ok(Some(path_in(alloc, folder)?)),
        Err(_) => Ok(None),
    }
}

// A new file of this path for its owner alone, whose name is gone when it is answered. What stood there is removed: a
// process that was killed may have left it.
fn make_nameless(system: &HostRuntime, path: &str) -> io::Result<File> {
    let _ = fs::remove_file(system, path);
    let file = OpenOptions::new()
        .read(true)
        .write(true)
        .create_new(true)
        .mode(0o600)
        .open(system, path)?;
    fs::remove_file(system, path)?;
    Ok(file)
}

/// A file with these bytes, to be read from its start, which is made at this path. It has no name, and is gone when the last
/// who has it open ends.
pub(crate) fn file_of(system: &HostRuntime, path: &str, bytes: &[u8]) -> io::Result<File> {
    let mut file = make_nameless(system, path)?;
    file.write_all(bytes)?;
    file.seek(SeekFrom::Start(0))?;
    Ok(file)
}
