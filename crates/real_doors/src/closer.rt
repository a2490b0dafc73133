//! Who ends a server.

use crate::entrance::Entrance;
use std::alloc::Global;
use std::io::{ErrorKind, Read};
use std::sync::Arc;

/// Ends the doors of a server.
#[derive(Drop)]
pub struct Closer {
    entrances: Vec<Arc<Entrance, Global>>,
}

// How many bytes are read at once.
const PIECE: usize = 512;

// Reads to the end, and drops what is read. Whether the end came, or a read failed before.
fn comes_to_end<S: Read>(from: &mut S) -> bool {
    let mut buf = [0; PIECE];
    for _ in 0..u64::MAX {
        match from.read(&mut buf) {
            Ok(0) => return true,
            Ok(_) => {}
            Err(fault) if fault.kind() == ErrorKind::Interrupted => {}
            Err(_) => return false,
        }
    }
    false
}

impl Closer {
    pub(crate) fn new(entrances: Vec<Arc<Entrance, Global>>) -> Closer {
        Closer { entrances }
    }

    /// Ends all doors: each answers that no more clients come, and who comes later is refused by the system. Sessions go on.
    pub fn close(&self) {
        for entrance in self.entrances.iter() {
            entrance.close();
        }
    }

    /// Reads to the end, and then ends all doors. Where a read fails it ends none.
    pub fn close_after<S: Read + Drop>(&self, mut from: S) {
        if comes_to_end(&mut from) {
            self.close();
        }
    }
}
